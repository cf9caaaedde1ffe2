// A call's result next to what it is compared with, which goes by the first byte of its word.
use calls::Outcome;
use lines::Case;
use plain_sums::{Sum, add_up, differing};

// A sum over two lists, and the list that it must be.
struct Comparison<'a> {
    sum: Option<Sum>,
    a: &'a [u32],
    b: &'a [u32],
    wanted: &'a [u32],
}

// A sum over pairs or partitions is the result. An inverse is multiplied by its table, a logarithm put back by its exponential,
// and a large exponential in what it must fulfil. What is put back is compared with the second table: the unit, or the one that
// it came from. With a word that begins otherwise there is no sum, and the result must be zeros.
fn comparison_by<'a>(how: Option<u8>, outcome: &Outcome<'a>) -> Comparison<'a> {
    let Outcome { a, b, res, .. } = *outcome;
    let (sum, a, b, wanted) = match how {
        Some(b'd') => (Some(Sum::DisjointPairs), a, b, res),
        Some(b'u') => (Some(Sum::Unions), a, b, res),
        Some(b'x') => (Some(Sum::SymmetricDifferences), a, b, res),
        Some(b'p') => (Some(Sum::Partitions), a, b, res),
        Some(b'b') => (Some(Sum::Compositions), a, b, res),
        Some(b's') => (Some(Sum::Projections), a, b, res),
        Some(b'l') => (Some(Sum::LowestBlocks), a, res, res),
        Some(b't') => (Some(Sum::DisjointPairs), a, res, b),
        Some(b'e') => (Some(Sum::Partitions), res, b, b),
        Some(b'f') => (Some(Sum::LowestBlocks), res, b, b),
        _ => (None, a, b, res),
    };
    Comparison { sum, a, b, wanted }
}

// How many entries differ.
pub fn directly(case: Case, outcome: &Outcome) -> usize {
    let mut room = [0; 4096];
    let sums = lines::first(&mut room, outcome.res.len());
    let Comparison { sum, a, b, wanted } = comparison_by(case.initial(8), outcome);
    add_up(sum, case.modulus(), a, b, sums);
    differing(sums, wanted)
}
