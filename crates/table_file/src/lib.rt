// The reader of table files of both kinds: header, table length, entries and end, in file order. The entries of a full file are
// read here, those of a sparse one in `sparse_file`. All is checked before the table is filled, so that a refusal leaves it as it
// came.
#![tactic(auto, unfolding(definitions::specs::Files::read_table))]

ghost use Rattle.std.specs.Prelude.{◌≡◌, ℕ, ◌≤◌, length, drop};
ghost use Rattle.definitions.specs.Limits.{most_controls};
ghost use Rattle.definitions.specs.Outcomes.{number_of};
ghost use Rattle.definitions.specs.Files.{read_entries, read_contents, reader_number, reader_kind, reader_controls, reader_modulus, table_read, packed};
ghost use Rattle.refusals.specs.Words.{word_of};
ghost use Rattle.number_groups.specs.NumberAnswers.{outcome_of, Accepts};
ghost use Rattle.table_header.specs.HeaderAnswers.{AnswerIs, kind_is, header_at};
ghost use Rattle.sparse_file.specs.Pairs.{Fills};
ghost use Rattle.table_file.specs.Entries.{read_entry, entries_to_end, behind_header, contents_number};

use checks::{MOST_CONTROLS, power};
use number_groups::{Numeral, number_again, read_number};
use refusals::Refusal;
use sparse_file::{fill_sparse, test_sparse};
use table_header::packed_answer;
pub use table_header::{Header, Kind, Opening, header_check, header_check_number, read_opening};

// The entry that stands at a place: 8, then 5.
fn read_entry(m: u32, bytes: &[u8], at: usize) -> Result<Numeral, Refusal>
    ensures { outcome_of bytes.now result ≡ read_entry m (drop at bytes.now) }
{
    let entry = read_number(bytes, at)?;
    if m <= entry.value {
        return Err(Refusal::Entry);
    }
    Ok(entry)
}

// Tests so many entries from a place on, and the end behind them (9).
fn test_entries(m: u32, count: usize, bytes: &[u8], at: usize) -> Result<(), Refusal>
    ensures { word_of result ≡ number_of (entries_to_end count m (drop at bytes.now)) }
{
    let mut place = at;
    for _ in 0..count {
        let entry = read_entry(m, bytes, place)?;
        place = entry.next;
    }
    if place < bytes.len() {
        return Err(Refusal::Tail);
    }
    Ok(())
}

// Fills a table with the entries that stand from a place on. They were tested before.
fn fill_table(bytes: &[u8], at: usize, table: &mut [u32])
    requires { (m : ℕ) × Accepts (read_entries (length table.old) m (drop at bytes.now)) }
    ensures { (m : ℕ) → Fills (read_entries (length table.old) m (drop at bytes.now)) table.new }
{
    let mut place = at;
    for entry in table.iter_mut() {
        let number = number_again(bytes, place);
        *entry = number.value;
        place = number.next;
    }
}

// Tests the entries behind a header, for a table of so many, and the end behind them.
pub fn test_body(opening: Opening, bytes: &[u8], long: usize) -> Result<(), Refusal>
    ensures { word_of result ≡ contents_number (kind_is opening.header.kind) long opening.header.m (drop opening.next bytes.now) }
{
    match opening.header.kind {
        Kind::Full => test_entries(opening.header.m, long, bytes, opening.next),
        Kind::Sparse => test_sparse(opening.header.m, long, bytes, opening.next),
    }
}

// Fills a table with the entries behind a header. They were tested before (`test_body`).
pub fn fill_body(opening: Opening, bytes: &[u8], table: &mut [u32])
    requires { Accepts (read_contents (kind_is opening.header.kind) (length table.old) opening.header.m (drop opening.next bytes.now)) }
    ensures { Fills (read_contents (kind_is opening.header.kind) (length table.old) opening.header.m (drop opening.next bytes.now)) table.new }
{
    match opening.header.kind {
        Kind::Full => fill_table(bytes, opening.next, table),
        Kind::Sparse => fill_sparse(bytes, opening.next, table),
    }
}

// Behind a header: the table's length, its entries and the end.
fn test_table(opening: Opening, bytes: &[u8], long: usize) -> Result<(), Refusal>
    requires { opening.header.n ≤ most_controls }
    ensures { word_of result ≡ number_of (behind_header (header_at bytes.now opening) long) }
{
    if long != power(opening.header.n) {
        return Err(Refusal::Length);
    }
    test_body(opening, bytes, long)
}

// The reader: kind, n, m and the table of a file, for a lent table that has as many entries.
pub fn read_table(bytes: &[u8], table: &mut [u32]) -> Result<Header, Refusal>
    ensures answer_is { let long = length table.old in AnswerIs (reader_number bytes.now long) (reader_kind bytes.now long) (reader_controls bytes.now long) (reader_modulus bytes.now long) result }
    ensures table_after { table.new ≡ table_read bytes.now table.old }
{
    let opening = read_opening(MOST_CONTROLS, bytes)?;
    test_table(opening, bytes, table.len())?;
    fill_body(opening, bytes, table);
    Ok(opening.header)
}

// The reader for a host: its answer as one number.
pub fn read_table_number(bytes: &[u8], table: &mut [u32]) -> u64
    ensures value { let long = length table.old in result ≡ packed (reader_controls bytes.now long) (reader_modulus bytes.now long) (reader_number bytes.now long) }
    ensures table_after { table.new ≡ table_read bytes.now table.old }
{
    packed_answer(read_table(bytes, table))
}
