// The writer of sparse files: 32 + n, then m, then how many entries are not 0, then for each of these in rising code the codes
// skipped before it and its value. One pass over the table tests its entries and finds how long the file is, a second one
// writes, so that a refusal leaves the buffer as it came.
#![tactic(auto)]

ghost use Rattle.std.specs.Prelude.{◌≡◌, ◌+◌, ◌<◌, ◌≤◌, length};
ghost use mathlib.Core.List.{[], ◌∷◌, flat_map};
ghost use Rattle.std.proofs.lemmas.List.Edits.{sets};
ghost use Rattle.definitions.specs.Limits.{most_controls};
ghost use Rattle.definitions.specs.Refusals.{first_word, panel_word, modulus_word, table_word};
ghost use Rattle.definitions.specs.Groups.{groups};
ghost use Rattle.definitions.specs.Files.{sparse, nonzero_count, pairs_from, file_of, writer_number, written_count, written_buffer};
ghost use Rattle.refusals.specs.Words.{word_of, value_of};
ghost use Rattle.checks.specs.Answers.{IsChecked};
ghost use Rattle.table_writer.specs.Writing.{short_word, MostEntries, WrittenBy};
ghost use Rattle.sparse_writer.specs.Sizes.{SizesAre, Measures};

use checks::power;
use nonzero_entries::next_entry;
use number_groups::{number_length, write_number};
use refusal_words::{test_length, test_panel};
use refusals::Refusal;
use residues::Modulus;
use table_header::SPARSE_MARK;

// How many entries of a table are not 0, and how many bytes they have in a sparse file.
#[derive(Clone, Copy)]
pub struct Sizes {
    pub entries: u32,
    pub bytes: u32,
}

// The first pass: the entries are tested, each is to be below m, and measured. It goes from one entry that is not 0 to the next,
// so that runs of zeros are skipped eight at a time.
#[tactic(auto, using(crate::proofs::SizeSteps::none_measured))]
fn measure(m: u32, table: &[u32]) -> Result<Sizes, Refusal>
    requires m_nonzero { 0 < m }
    requires most_entries { MostEntries (length table.now) }
    ensures { Measures m table.now result }
{
    let mut entries = 0;
    let mut bytes = 0;
    let mut from = 0;
    let mut code = next_entry(table, 0);
    while code < table.len() {
        let value = table[code];
        if m <= value {
            return Err(Refusal::Entry);
        }
        bytes += number_length((code - from) as u32) + number_length(value);
        entries += 1;
        from = code + 1;
        code = next_entry(table, from);
    }
    Ok(Sizes { entries, bytes })
}

// The second pass: gap and value of each entry that is not 0, from a place on. Like the first, it skips zeros eight at a time.
#[tactic(auto, using(crate::proofs::SizeSteps::none_written, crate::proofs::SizeSteps::gap_room, crate::proofs::SizeSteps::value_room))]
fn write_pairs(table: &[u32], at: usize, buffer: &mut [u8])
    requires most_entries { MostEntries (length table.now) }
    requires table_in_bounds { at + length (flat_map groups (pairs_from 0 table.now)) ≤ length buffer.old }
    ensures { buffer.new ≡ sets buffer.old at (flat_map groups (pairs_from 0 table.now)) }
{
    let mut place = at;
    let mut from = 0;
    let mut code = next_entry(table, 0);
    while code < table.len() {
        let value_at = write_number((code - from) as u32, place, buffer);
        place = write_number(table[code], value_at, buffer);
        from = code + 1;
        code = next_entry(table, from);
    }
}

// Writes the file of a table that has so many entries which are not 0.
#[tactic(auto, using(crate::proofs::SizeSteps::counted_long, crate::proofs::SizeSteps::file_written))]
fn write_file(n: u32, m: u32, entries: u32, table: &[u32], buffer: &mut [u8])
    requires n_le_most_controls { n ≤ most_controls }
    requires most_entries { MostEntries (length table.now) }
    requires entries_value { entries ≡ nonzero_count table.now }
    requires table_in_bounds { length (file_of sparse n m table.now) ≤ length buffer.old }
    ensures { buffer.new ≡ sets buffer.old 0 (file_of sparse n m table.now) }
{
    let second = write_number(SPARSE_MARK + n, 0, buffer);
    let third = write_number(m, second, buffer);
    let pairs = write_number(entries, third, buffer);
    write_pairs(table, pairs, buffer);
}

// Writes the file of a table with these sizes if the buffer has room for it.
#[tactic(auto, using(crate::proofs::SizeSteps::counted_long, table_writer::specs::WritingLaws::too_short, table_writer::specs::WritingLaws::long_enough))]
fn write_measured(
    n: u32,
    m: u32,
    table: &[u32],
    sizes: Sizes,
    buffer: &mut [u8],
) -> Result<u32, Refusal>
    requires n_le_most_controls { n ≤ most_controls }
    requires most_entries { MostEntries (length table.now) }
    requires sizes_are { SizesAre m table.now sizes }
    ensures { WrittenBy sparse n m table.now (short_word sparse n m table.now (length buffer.old)) buffer.old result buffer.new }
{
    let header = number_length(SPARSE_MARK + n) + number_length(m);
    let count = header + number_length(sizes.entries) + sizes.bytes;
    if buffer.len() < (count as usize) {
        return Err(Refusal::Short);
    }
    write_file(n, m, sizes.entries, table, buffer);
    Ok(count)
}

// The tests before the entries: n, m and the length of the table.
fn check_length(n: u32, m: u32, long: usize) -> Result<Modulus, Refusal>
    ensures { IsChecked m (first_word (panel_word n ∷ modulus_word m ∷ table_word n long ∷ [])) result }
{
    test_panel(n)?;
    let modulus = Modulus::new(m)?;
    test_length(power(n), long)?;
    Ok(modulus)
}

// The writer of sparse files: n, m and the table into the start of the buffer. It answers how many bytes it wrote.
#[tactic(auto, using(crate::proofs::SizeSteps::no_shape, crate::proofs::SizeSteps::few, crate::proofs::SizeSteps::some, crate::proofs::SizeSteps::few_entries))]
pub fn write_sparse(n: u32, m: u32, table: &[u32], buffer: &mut [u8]) -> Result<u32, Refusal>
    ensures number_value { word_of result ≡ writer_number sparse n m table.now (length buffer.old) }
    ensures count_value { value_of result ≡ written_count sparse n m table.now (length buffer.old) }
    ensures buffer_after { buffer.new ≡ written_buffer sparse n m table.now buffer.old }
{
    check_length(n, m, table.len())?;
    let sizes = measure(m, table)?;
    write_measured(n, m, table, sizes, buffer)
}
