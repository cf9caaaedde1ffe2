// A table file of either kind, of at most 8 controls, as text.
ghost use Rattle.std.specs.Prelude.{◌≡◌, ◌^◌, ◌≤◌, length, replicate, take};
ghost use Rattle.definitions.specs.Limits.{most_shown};
ghost use Rattle.definitions.specs.Show.{text_of};
ghost use Rattle.definitions.specs.Files.{read_header, read_body};
ghost use Rattle.table_header.specs.HeaderAnswers.{opening_outcome, header_at};
ghost use Rattle.text_pieces.specs.Text.{Writes};
ghost use Rattle.table_show.specs.Text.{Lent, Shows, longest_text};

use crate::text::{write_refusal, write_table_text};
use checks::power;
use refusals::Refusal;
use table_file::{Opening, fill_body, read_opening, test_body};

// The most controls that are shown.
const MOST_SHOWN: u32 = 8;

// The text of what stands behind a header. The table has as many entries as the header says.
fn show_table(opening: Opening, bytes: &[u8], table: &mut [u32], out: &mut [u8]) -> usize
    requires n_le_most_shown { opening.header.n ≤ most_shown }
    requires table_len { length table.old ≡ 2 ^ opening.header.n }
    requires longest_text_in_bounds { longest_text ≤ length out.old }
    ensures { Writes out.old 0 (text_of (read_body (header_at bytes.now opening))) result out.new }
{
    match test_body(opening, bytes, table.len()) {
        Ok(()) => {
            fill_body(opening, bytes, table);
            write_table_text(opening.header.n, opening.header.m, table, out)
        }
        Err(refusal) => write_refusal(refusal, out),
    }
}

// The header of a file that is shown.
fn shown_opening(bytes: &[u8]) -> Result<Opening, Refusal>
    ensures { opening_outcome bytes.now result ≡ read_header most_shown bytes.now }
{
    read_opening(MOST_SHOWN, bytes)
}

// Puts what `panelshow` prints of some bytes at the start of the buffer, and answers how many bytes that are. The table is a
// workspace.
fn write_shown(bytes: &[u8], table: &mut [u32], out: &mut [u8]) -> usize
    requires { Lent table.old out.old }
    ensures { Shows bytes.now out.old result out.new }
{
    match shown_opening(bytes) {
        Ok(opening) => {
            let count = power(opening.header.n);
            show_table(opening, bytes, &mut table[..count], out)
        }
        Err(refusal) => write_refusal(refusal, out),
    }
}

// A text, and how many of its bytes count: the longest has 8,470, a line of two numbers and 256 lines of three.
#[derive(Clone, Copy)]
pub struct Text {
    pub bytes: [u8; 8470],
    pub length: usize,
    ghost within: { length ≤ 8470 },
}

impl Text {
    // The bytes that count.
    pub fn as_slice(&self) -> &[u8]
        ensures { result.now ≡ take self.now.length self.now.bytes }
    {
        &self.bytes[..self.length]
    }
}

// What `panelshow` prints of some bytes.
pub fn show(bytes: &[u8]) -> Text
    ensures { Shows bytes.now (replicate longest_text 0) result.length result.bytes }
{
    let mut table = [0u32; 256];
    let mut out = [0u8; 8470];
    let length = write_shown(bytes, &mut table, &mut out);
    Text { bytes: out, length }
}
