// The table sums over rows of bytes, for the program that writes what they come to: a sum on a table of 1040 bytes (`table`), for a row of 24 bytes
// (`row`). Which number names which sum stands in sums_by_number.
#![tactic(auto)]

mod row;
mod table;

pub use row::reply_to;
