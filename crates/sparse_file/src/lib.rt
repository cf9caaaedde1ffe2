// The table of a sparse file, behind m: how many entries are not 0, and for each of these in rising code the codes that are
// skipped before it and its value. Everything is tested by one function and filled in by another, so that a refusal leaves a
// lent table as it came.
#![tactic(auto, unfolding(definitions::specs::Files::read_gap, definitions::specs::Files::read_value, definitions::specs::Files::read_pair))]

ghost use Rattle.std.specs.Prelude.{◌≡◌, ℕ, length, drop};
ghost use Rattle.definitions.specs.Outcomes.{number_of, and_then};
ghost use Rattle.definitions.specs.Files.{sparse, zeros, read_gap, read_value, read_pair, read_pairs, read_contents};
ghost use Rattle.refusals.specs.Words.{word_of};
ghost use Rattle.number_groups.specs.NumberAnswers.{outcome_of, Accepts};
ghost use Rattle.table_header.specs.Ends.{to_end};
ghost use Rattle.sparse_file.specs.Pairs.{pair_outcome, Fills};

use number_groups::{Numeral, number_again, read_number};
use refusals::Refusal;

// An entry that is not 0, with the codes skipped before it, and the place behind it.
#[derive(Clone, Copy)]
pub struct Pair {
    pub gap: u32,
    pub value: u32,
    pub next: usize,
}

// The gap that stands at a place, with so many codes left: 8, then 15.
fn read_gap(left: usize, bytes: &[u8], at: usize) -> Result<Numeral, Refusal>
    ensures { outcome_of bytes.now result ≡ read_gap left (drop at bytes.now) }
{
    let gap = read_number(bytes, at)?;
    if left <= gap.value as usize {
        return Err(Refusal::Gap);
    }
    Ok(gap)
}

// The value that stands at a place: 8, then 16, then 5.
fn read_value(m: u32, bytes: &[u8], at: usize) -> Result<Numeral, Refusal>
    ensures { outcome_of bytes.now result ≡ read_value m (drop at bytes.now) }
{
    let value = read_number(bytes, at)?;
    if value.value == 0 {
        return Err(Refusal::Zero);
    }
    if m <= value.value {
        return Err(Refusal::Entry);
    }
    Ok(value)
}

// The entry that stands at a place.
fn read_pair(left: usize, m: u32, bytes: &[u8], at: usize) -> Result<Pair, Refusal>
    ensures { pair_outcome bytes.now result ≡ read_pair left m (drop at bytes.now) }
{
    let gap = read_gap(left, bytes, at)?;
    let value = read_value(m, bytes, gap.next)?;
    Ok(Pair {
        gap: gap.value,
        value: value.value,
        next: value.next,
    })
}

// Tests so many entries from a place on, and the end behind them (9).
fn test_pairs(m: u32, count: u32, long: usize, bytes: &[u8], at: usize) -> Result<(), Refusal>
    ensures { word_of result ≡ number_of (and_then (read_pairs count long m (drop at bytes.now)) to_end) }
{
    let mut place = at;
    let mut left = long;
    for _ in 0..count {
        let pair = read_pair(left, m, bytes, place)?;
        left -= pair.gap as usize + 1;
        place = pair.next;
    }
    if place < bytes.len() {
        return Err(Refusal::Tail);
    }
    Ok(())
}

// Tests a table of so many entries from a place on, and the end behind it.
pub fn test_sparse(m: u32, long: usize, bytes: &[u8], at: usize) -> Result<(), Refusal>
    ensures { word_of result ≡ number_of (and_then (read_contents sparse long m (drop at bytes.now)) to_end) }
{
    let count = read_number(bytes, at)?;
    test_pairs(m, count.value, long, bytes, count.next)
}

// Sets the entries that are not 0 in a table of zeros. They were tested before.
fn fill_pairs(count: u32, bytes: &[u8], at: usize, table: &mut [u32])
    requires table_value { table.old ≡ zeros (length table.old) }
    requires by_index { (m : ℕ) × Accepts (read_pairs count (length table.old) m (drop at bytes.now)) }
    ensures { (m : ℕ) → Fills (read_pairs count (length table.old) m (drop at bytes.now)) table.new }
{
    let mut place = at;
    let mut next = 0;
    for _ in 0..count {
        let gap = number_again(bytes, place);
        let value = number_again(bytes, gap.next);
        let code = next + gap.value as usize;
        table[code] = value.value;
        next = code + 1;
        place = value.next;
    }
}

// Fills a table from a place on, with what was tested before.
pub fn fill_sparse(bytes: &[u8], at: usize, table: &mut [u32])
    requires { (m : ℕ) × Accepts (read_contents sparse (length table.old) m (drop at bytes.now)) }
    ensures { (m : ℕ) → Fills (read_contents sparse (length table.old) m (drop at bytes.now)) table.new }
{
    let count = number_again(bytes, at);
    table.fill(0);
    fill_pairs(count.value, bytes, count.next, table);
}
