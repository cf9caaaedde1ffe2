// Sums over pairs of sets and over partitions, added up one by one, and tables to try them on. Nothing here is the library's.
#![tactic(auto)]

mod numbers;
mod pairs;
mod partitions;
mod random;
mod sums;

pub use numbers::{ceiling, differing};
pub use random::fill_from;
pub use sums::{Sum, add_up};
