// What wall pages have besides the column of the set: the rest of a line, the heading, and how many lines and pages there are.
#![tactic(auto)]

ghost use Rattle.std.specs.Prelude.{◌≡◌, ◌+◌, ◌^◌, ◌<◌, ◌≤◌, length};
ghost use Rattle.definitions.specs.Limits.{most_controls};
ghost use Rattle.definitions.specs.Pages.{behind_column, heading_text, heading, pages_for};
ghost use Rattle.text_pieces.specs.Text.{Writes};
ghost use Rattle.page_text.specs.PageParts.{Counted};

use text_pieces::{
    BLANK, LINE_FEED, write_aligned, write_blanks, write_byte, write_bytes, write_decimal,
};

// How many lines a full page has.
pub const PAGE_LINES: u32 = 50;

// Where the next text goes, and the code from which the next line is looked for.
#[derive(Clone, Copy)]
pub struct Place {
    pub next: usize,
    pub code: usize,
}

// What stands behind the column of the set.
pub fn write_behind(size: u32, value: u32, at: usize, out: &mut [u8]) -> usize
    requires size_bound { size < 100 }
    requires at_in_bounds { at + 15 ≤ length out.old }
    ensures { Writes out.old at (behind_column size value) result out.new }
{
    let second = write_byte(BLANK, at, out);
    let third = write_aligned(size, 2, second, out);
    let fourth = write_byte(BLANK, third, out);
    let fifth = write_aligned(value, 10, fourth, out);
    write_byte(LINE_FEED, fifth, out)
}

// The words of a heading: at most 29 bytes.
fn write_heading_text(page: u32, pages: u32, at: usize, out: &mut [u8]) -> usize
    requires { at + 29 ≤ length out.old }
    ensures { Writes out.old at (heading_text page pages) result out.new }
{
    let number = write_bytes(b"page ", at, out);
    let middle = write_decimal(page, number, out);
    let count = write_bytes(b" of ", middle, out);
    write_decimal(pages, count, out)
}

// The heading of a page, filled to a width.
pub fn write_heading(width: usize, page: u32, pages: u32, at: usize, out: &mut [u8]) -> usize
    requires le_width { 29 ≤ width }
    requires width_in_bounds { at + width < length out.old }
    ensures value { result ≡ at + width + 1 }
    ensures writes { Writes out.old at (heading width page pages) result out.new }
{
    let text = write_heading_text(page, pages, at, out);
    let end = write_blanks(text, at + width, out);
    write_byte(LINE_FEED, end, out)
}

// How many entries are not 0.
pub fn count_lines(table: &[u32]) -> u32
    requires { length table.now ≤ 2 ^ most_controls }
    ensures { Counted table.now result }
{
    table.iter().map(|value| u32::from(*value != 0)).sum()
}

// How many pages so many lines fill.
pub fn count_pages(lines: u32) -> u32
    requires { lines ≤ 2 ^ most_controls }
    ensures { result ≡ pages_for lines }
{
    lines.div_ceil(PAGE_LINES).max(1)
}
