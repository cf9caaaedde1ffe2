// Each sum by its name.
use crate::pairs::{disjoint, exponential_by_lowest, pair_table};
use crate::partitions::{composition_table, exponential_table, projection_row};

// Over disjoint pairs, those with one union or one symmetric difference, pairs of a block with the lowest control and the rest,
// partitions, partitions with a row for their number of blocks, sets and partitions of the rest by their number of blocks.
#[derive(Clone, Copy, Debug, PartialEq, Eq)]
pub enum Sum {
    DisjointPairs,
    Unions,
    SymmetricDifferences,
    LowestBlocks,
    Partitions,
    Compositions,
    Projections,
}

// Of a table a and a table or row b, into zeros; with None they stay.
pub fn add_up(sum: Option<Sum>, m: u32, a: &[u32], b: &[u32], sums: &mut [u32]) {
    match sum {
        Some(Sum::DisjointPairs) => pair_table(disjoint, a, b, m, sums),
        Some(Sum::Unions) => pair_table(|l, r| Some(l | r), a, b, m, sums),
        Some(Sum::SymmetricDifferences) => pair_table(|l, r| Some(l ^ r), a, b, m, sums),
        Some(Sum::LowestBlocks) => exponential_by_lowest(a, b, m, sums),
        Some(Sum::Partitions) => exponential_table(a, m, sums),
        Some(Sum::Compositions) => composition_table(a, b, m, sums),
        Some(Sum::Projections) => projection_row(a, b, m, sums),
        None => {}
    }
}
