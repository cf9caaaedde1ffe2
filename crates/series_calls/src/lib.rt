// The public calls of logarithm and inverse, and, passed on, exponential and composition with a row. Each makes 01's tests, works
// in the part of the pad that it may use, and clears that part once, at the end.
#![tactic(auto)]

pub mod inverses;
pub mod logarithms;

pub use composition_calls::{composition, exponential};
pub use inverses::inverse;
pub use logarithms::logarithm;
