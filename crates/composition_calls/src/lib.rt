// The public calls of exponential and composition with a row. Each makes 01's tests, works in the part of the pad that it may
// use, and clears that part once, at the end.
#![tactic(auto)]

pub mod compositions;
pub mod exponentials;

pub use compositions::composition;
pub use exponentials::exponential;
