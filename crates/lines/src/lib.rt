// Lines of text, for the programs that run the calls: a case is read from a line, and its outcome printed as one.
#![tactic(auto)]

mod cases;
mod fields;
mod input;
mod printing;
mod reading;

pub use cases::each_case;
pub use fields::Case;
pub use input::fill;
pub use printing::{Entries, pad};
pub use reading::{first, length_in, marks, numbers, part, value_at};
