//! Files of rows: what a program is asked, and beside it the answer that is expected, known from outside. A program reads such a file
//! from its folder, answers each row, and compares. No function promises more than that it is safe and ends, but for plain ones.
//!
//! A file of rows is UTF-8, one row a line, with a tab between two fields. A line that is empty or begins with `#` is a comment. In a
//! field `\n`, `\t`, `\r`, `\\` and `\xHH`, with two hexadecimal digits, stand for one byte each. The last field is the expected answer.
#![tactic(auto)]

mod escapes;
mod files;
mod row;
mod tally;

pub use escapes::escaped;
pub use files::{read_file, read_rows};
pub use row::Row;
pub use tally::Tally;
