// The lines of region 3 as the documents print them: the border with region 2 and the table of the boundaries, in specs/. There is no code here.

#![tactic(auto)]
