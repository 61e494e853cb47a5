// The entry points by number, for the program that runs them over rows of bytes: what each answers (`call`), what a reply needs beside
// its shapes (`shape`), rows of bytes answered (`page`). Which number names which entry stands in entry_numbers, and what a whole number names in
// three of the entries stands in number_entries.
#![tactic(auto)]

mod call;
mod page;
mod shape;

pub use call::answer;
pub use page::answer_rows;
