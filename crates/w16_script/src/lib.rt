//! Scripts of the machine of handles: lines of commands in, lines of replies out.
#![tactic(auto)]

mod arguments;
mod bytes;
mod expected;
mod feed;
mod laws;
mod line;
mod name;
mod number;
mod outcome;
mod print;
mod read;
mod registers;
mod running;
mod script;
mod text;
mod walk;
mod words;
mod write;

pub use bytes::MOST_BYTES;
pub use expected::{Expected, why_bad};
pub use laws::{one_reading, plain_bytes};
pub use line::{Line, read_line};
pub use outcome::{Ended, RunFault};
pub use print::{print_error, print_reply};
pub use registers::Registers;
pub use script::run;
