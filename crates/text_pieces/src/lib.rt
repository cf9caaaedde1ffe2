// Pieces of text in a lent buffer: bytes, blanks, numbers in decimal. Each function writes at a place and answers the place
// behind.
#![tactic(auto)]

ghost use Rattle.std.specs.Prelude.{◌≡◌, ◌∷◌, [], ◌+◌, ◌-◌, ◌^◌, ◌<◌, ◌≤◌, length};
ghost use Rattle.definitions.specs.Show.{decimal};
ghost use Rattle.definitions.specs.Pages.{blanks, aligned};
ghost use Rattle.text_pieces.specs.Text.{Writes, ColumnFits, digits_left, digit_or_blank};

pub const BLANK: u8 = b' ';

pub const LINE_FEED: u8 = b'\n';

pub fn write_byte(byte: u8, at: usize, out: &mut [u8]) -> usize
    requires { at < length out.old }
    ensures { Writes out.old at (byte ∷ []) result out.new }
{
    out[at] = byte;
    at + 1
}

pub fn write_bytes(bytes: &[u8], at: usize, out: &mut [u8]) -> usize
    requires { at + length bytes.now ≤ length out.old }
    ensures { Writes out.old at bytes.now result out.new }
{
    let end = at + bytes.len();
    out[at..end].copy_from_slice(bytes);
    end
}

// Blanks up to the place `end`.
pub fn write_blanks(at: usize, end: usize, out: &mut [u8]) -> usize
    requires at_le_end { at ≤ end }
    requires end_in_bounds { end ≤ length out.old }
    ensures value { result ≡ end }
    ensures writes { Writes out.old at (blanks (end - at)) result out.new }
{
    out[at..end].fill(BLANK);
    end
}

// The digits above the last one are those of a tenth of the value.
pub fn write_decimal(value: u32, at: usize, out: &mut [u8]) -> usize
    requires { at + length (decimal value) ≤ length out.old }
    ensures { Writes out.old at (decimal value) result out.new }
{
    if value < 10 {
        return write_byte(b'0' + value as u8, at, out);
    }
    let last = write_decimal(value / 10, at, out);
    write_byte(b'0' + (value % 10) as u8, last, out)
}

// The last digit of what is left of a number, and a blank once nothing is left.
fn digit_or_blank(rest: u32) -> u8
    ensures { result ≡ digit_or_blank rest }
{
    if rest == 0 {
        return BLANK;
    }
    b'0' + (rest % 10) as u8
}

// What is left of a number, aligned to the right before the place `end`, from its last digit on. The same number of
// bytes is stored whatever the number, so that no step depends on how many digits it has.
fn write_left(number: u32, at: usize, end: usize, out: &mut [u8])
    requires number_bound { number < 10 ^ (end - at) }
    requires at_le_end { at ≤ end }
    requires end_in_bounds { end ≤ length out.old }
    ensures { Writes out.old at (aligned (end - at) (digits_left number)) end out.new }
{
    let mut rest = number;
    for place in (at..end).rev() {
        out[place] = digit_or_blank(rest);
        rest /= 10;
    }
}

// A number aligned to the right.
pub fn write_aligned(value: u32, width: usize, at: usize, out: &mut [u8]) -> usize
    requires { ColumnFits value width at out.old }
    ensures { Writes out.old at (aligned width (decimal value)) result out.new }
{
    let last = at + width - 1;
    write_left(value / 10, at, last, out);
    write_byte(b'0' + (value % 10) as u8, last, out)
}
