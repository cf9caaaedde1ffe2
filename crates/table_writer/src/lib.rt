// The writer of full files: the file of a table at the start of a lent buffer. The file's length is known before a byte is
// written, so that a refusal leaves the buffer as it came.
#![tactic(auto)]

ghost use Rattle.std.specs.Prelude.{◌≡◌, ◌+◌, ◌≤◌, length};
ghost use mathlib.Core.List.{flat_map};
ghost use Rattle.std.proofs.lemmas.List.Edits.{sets};
ghost use Rattle.definitions.specs.Groups.{groups};
ghost use Rattle.definitions.specs.Files.{full, file_of, writer_number, written_count, written_buffer};
ghost use Rattle.refusals.specs.Words.{word_of, value_of};
ghost use Rattle.table_writer.specs.Writing.{short_word, MostEntries, WrittenBy};

use checks::check_table;
use number_groups::{number_length, write_number};
use refusals::Refusal;

// How many bytes the full file of a table has.
#[tactic(auto, using(crate::proofs::WriterSteps::header_counted))]
fn file_length(n: u32, m: u32, table: &[u32]) -> u32
    requires { MostEntries (length table.now) }
    ensures { result ≡ length (file_of full n m table.now) }
{
    let mut count = number_length(n) + number_length(m);
    for x in table {
        count += number_length(*x);
    }
    count
}

// Writes the entries of a table from a place on.
#[tactic(auto, using(crate::proofs::WriterSteps::room, crate::proofs::WriterSteps::entries_written))]
fn write_entries(table: &[u32], at: usize, buffer: &mut [u8])
    requires { at + length (flat_map groups table.now) ≤ length buffer.old }
    ensures { buffer.new ≡ sets buffer.old at (flat_map groups table.now) }
{
    let mut place = at;
    for x in table {
        place = write_number(*x, place, buffer);
    }
}

#[tactic(auto, using(crate::proofs::WriterSteps::file_length, crate::proofs::WriterSteps::file_written))]
fn write_file(n: u32, m: u32, table: &[u32], buffer: &mut [u8])
    requires { length (file_of full n m table.now) ≤ length buffer.old }
    ensures { buffer.new ≡ sets buffer.old 0 (file_of full n m table.now) }
{
    let second = write_number(n, 0, buffer);
    let third = write_number(m, second, buffer);
    write_entries(table, third, buffer);
}

// Writes the file of a table if the buffer has room for it.
#[tactic(auto, using(crate::specs::WritingLaws::too_short, crate::specs::WritingLaws::long_enough))]
fn write_checked(n: u32, m: u32, table: &[u32], buffer: &mut [u8]) -> Result<u32, Refusal>
    requires { MostEntries (length table.now) }
    ensures { WrittenBy full n m table.now (short_word full n m table.now (length buffer.old)) buffer.old result buffer.new }
{
    let count = file_length(n, m, table);
    if buffer.len() < (count as usize) {
        return Err(Refusal::Short);
    }
    write_file(n, m, table, buffer);
    Ok(count)
}

// The writer of full files: n, m and the table into the start of the buffer. It answers how many bytes it wrote.
#[tactic(auto, using(crate::specs::WritingLaws::few_entries, crate::specs::WritingLaws::as_written, crate::specs::WritingLaws::as_refused, crate::specs::WritingLaws::by_tests))]
pub fn write_table(n: u32, m: u32, table: &[u32], buffer: &mut [u8]) -> Result<u32, Refusal>
    ensures number_value { word_of result ≡ writer_number full n m table.now (length buffer.old) }
    ensures count_value { value_of result ≡ written_count full n m table.now (length buffer.old) }
    ensures buffer_after { buffer.new ≡ written_buffer full n m table.now buffer.old }
{
    check_table(n, m, table)?;
    write_checked(n, m, table, buffer)
}
