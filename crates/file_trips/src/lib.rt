// The round trip of the calls, over both kinds: a table that is written reads back, and a file that is read is written again by
// the writer of its kind.
#![tactic(auto)]

ghost use Rattle.std.specs.Prelude.{length};
ghost use Rattle.definitions.specs.Files.{writer_number};
ghost use Rattle.table_header.specs.HeaderAnswers.{kind_is};
ghost use Rattle.table_writer.specs.Writing.{WrittenBy};
ghost use Rattle.file_trips.specs.Trips.{WrittenThenRead, ReadThenWritten};

use refusals::Refusal;
use sparse_writer::write_sparse;
use table_file::{Header, Kind, read_table};
use table_writer::write_table;

// What the two calls of a round trip answered. A refusal of the first is that of both.
#[derive(Clone, Copy)]
pub struct Trip {
    pub written: Result<u32, Refusal>,
    pub answer: Result<Header, Refusal>,
}

// The writer of a kind.
fn write_kind(kind: Kind, n: u32, m: u32, table: &[u32], buffer: &mut [u8]) -> Result<u32, Refusal>
    ensures { WrittenBy (kind_is kind) n m table.now (writer_number (kind_is kind) n m table.now (length buffer.old)) buffer.old result buffer.new }
{
    match kind {
        Kind::Full => write_table(n, m, table, buffer),
        Kind::Sparse => write_sparse(n, m, table, buffer),
    }
}

// Writes a table and reads it back: if neither call is refused, the same kind, n and m are answered, and the second table holds
// what the first does.
pub fn write_then_read(
    kind: Kind,
    n: u32,
    m: u32,
    table: &[u32],
    buffer: &mut [u8],
    back: &mut [u32],
) -> Trip
    ensures { WrittenThenRead (kind_is kind) n m table.now buffer.old back.old result buffer.new back.new }
{
    match write_kind(kind, n, m, table, buffer) {
        Ok(count) => {
            let answer = read_table(&buffer[..count as usize], back);
            Trip {
                written: Ok(count),
                answer,
            }
        }
        Err(refusal) => Trip {
            written: Err(refusal),
            answer: Err(refusal),
        },
    }
}

// Reads a file and writes its table: if neither call is refused, the bytes that were read are those that are written.
pub fn read_then_write(bytes: &[u8], table: &mut [u32], buffer: &mut [u8]) -> Trip
    ensures { ReadThenWritten bytes.now table.old buffer.old result table.new buffer.new }
{
    match read_table(bytes, table) {
        Ok(header) => {
            let kind = header.kind;
            let written = write_kind(kind, header.n, header.m, table, buffer);
            Trip {
                written,
                answer: Ok(header),
            }
        }
        Err(word) => Trip {
            written: Err(word),
            answer: Err(word),
        },
    }
}
