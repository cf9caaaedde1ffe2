// The call that writes the wall pages of a table: a line for each entry that is not 0, with the labels of its set's controls, 50 to a
// page. The sheet is read and the lines are counted before a byte is written, so that a refusal leaves the buffer as it came.
#![tactic(auto)]

ghost use Rattle.std.specs.Prelude.{◌≡◌, length};
ghost use Rattle.definitions.specs.Pages.{line_of, pages_text, pages_number, pages_written, pages_buffer};
ghost use Rattle.refusals.specs.Words.{word_of, value_of};
ghost use Rattle.text_pieces.specs.Text.{Writes};
ghost use Rattle.table_writer.specs.Writing.{MostEntries};
ghost use Rattle.label_column.specs.Columns.{layout_of};
ghost use Rattle.page_text.specs.PageParts.{Room, LinesRoom, LinesWritten, PagesRoom};
ghost use Rattle.pages.specs.PagesBy.{IfRoom, IfSheet};

use checks::check_table;
use label_column::{COLUMN_WIDTH, write_column};
use label_sheet::{LABELS, LONGEST_LABEL, Label, Labels, read_sheet};
use nonzero_entries::next_entry;
use page_text::{PAGE_LINES, Place, count_lines, count_pages, write_behind, write_heading};
use refusals::Refusal;

// How wide the heading is.
const HEADING_WIDTH: usize = 157;

// The length of a line, and of a heading.
const LINE_LENGTH: u32 = 158;

// The line of a set and its value.
fn write_line(code: usize, value: u32, labels: &Labels, at: usize, out: &mut [u8]) -> usize
    requires { Room code 158 at out.old }
    ensures { Writes out.old at (line_of (layout_of labels.now) code value) result out.new }
{
    let size = write_column(code, labels, at, out);
    write_behind(size as u32, value, at + COLUMN_WIDTH, out)
}

// The lines of a page, for the entries from a code on that are not 0. It goes from one such entry to the next, so that runs of
// zeros are skipped eight at a time.
fn write_lines(table: &[u32], labels: &Labels, first: usize, at: usize, out: &mut [u8]) -> Place
    requires { LinesRoom 158 table.now first at out.old }
    ensures { LinesWritten (layout_of labels.now) table.now first out.old at result out.new }
{
    let mut place = at;
    let mut code = next_entry(table, first);
    let mut left = PAGE_LINES;
    while code < table.len() && 0 < left {
        place = write_line(code, table[code], labels, place, out);
        left -= 1;
        code = next_entry(table, code + 1);
    }
    Place {
        next: place,
        code: code,
    }
}

// All pages; `pages` is how many there are.
fn write_all(pages: u32, table: &[u32], labels: &Labels, out: &mut [u8]) -> usize
    requires { PagesRoom (layout_of labels.now) table.now pages out.old }
    ensures { Writes out.old 0 (pages_text (layout_of labels.now) table.now) result out.new }
{
    let mut place = 0;
    let mut code = 0;
    for page in 0..pages {
        let lines = write_heading(HEADING_WIDTH, page + 1, pages, place, out);
        let end = write_lines(table, labels, code, lines, out);
        place = end.next;
        code = end.code;
    }
    place
}

// Writes the pages of a table if the buffer has room for them.
fn write_checked(table: &[u32], labels: &Labels, buffer: &mut [u8]) -> Result<u32, Refusal>
    requires { MostEntries (length table.now) }
    ensures { IfRoom (pages_text (layout_of labels.now) table.now) buffer.old result buffer.new }
{
    let lines = count_lines(table);
    let pages = count_pages(lines);
    let count = LINE_LENGTH * (lines + pages);
    if buffer.len() < (count as usize) {
        return Err(Refusal::Short);
    }
    write_all(pages, table, labels, buffer);
    Ok(count)
}

// Writes the pages of a table if the sheet is accepted and the buffer has room for them.
fn write_labelled(table: &[u32], sheet: &[u8], buffer: &mut [u8]) -> Result<u32, Refusal>
    requires { MostEntries (length table.now) }
    ensures { IfSheet sheet.now table.now buffer.old result buffer.new }
{
    let mut labels = [Label {
        name: [b' '; LONGEST_LABEL],
        length: 0,
    }; LABELS];
    read_sheet(sheet, &mut labels)?;
    write_checked(table, &Labels { labels: &labels }, buffer)
}

// The pages of a table, with the labels of a sheet, into the start of the buffer. It answers how many bytes it wrote.
#[tactic(auto, using(table_writer::specs::WritingLaws::few_entries, crate::proofs::CallSteps::as_refused))]
pub fn write_pages(
    n: u32,
    m: u32,
    table: &[u32],
    sheet: &[u8],
    buffer: &mut [u8],
) -> Result<u32, Refusal>
    ensures number_value { word_of result ≡ pages_number n m table.now sheet.now (length buffer.old) }
    ensures count_value { value_of result ≡ pages_written n m table.now sheet.now (length buffer.old) }
    ensures buffer_after { buffer.new ≡ pages_buffer n m table.now sheet.now buffer.old }
{
    check_table(n, m, table)?;
    write_labelled(table, sheet, buffer)
}
