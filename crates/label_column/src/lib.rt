// The set column of a line: the labels of the set's controls, joined by +, over blanks.
#![tactic(auto)]

ghost use Rattle.std.specs.Prelude.{◌≡◌, ◌+◌, ◌^◌, ◌<◌, ◌≤◌, length};
ghost use Rattle.definitions.specs.Limits.{most_controls};
ghost use Rattle.definitions.specs.Sets.{size};
ghost use Rattle.definitions.specs.Pages.{filled, labelled};
ghost use Rattle.text_pieces.specs.Text.{Writes};
ghost use Rattle.label_sheet.specs.LabelArrays.{labels_in};
ghost use Rattle.page_text.specs.PageParts.{Room};
ghost use Rattle.label_column.specs.Columns.{Lowest, joint};

use label_sheet::Labels;
use text_pieces::{write_blanks, write_byte, write_bytes};

// How wide the column is.
pub const COLUMN_WIDTH: usize = 143;

// The lowest control of a set that is not empty.
fn lowest_control(code: usize) -> usize
    requires { (0 < code) × (code < 2 ^ most_controls) }
    ensures { Lowest code result }
{
    code.trailing_zeros() as usize
}

// A + behind a label if controls are left.
fn write_joint(rest: usize, at: usize, out: &mut [u8]) -> usize
    requires { at + length (joint rest) ≤ length out.old }
    ensures { Writes out.old at (joint rest) result out.new }
{
    if rest == 0 {
        return at;
    }
    write_byte(b'+', at, out)
}

// The labels of a set, filled with blanks; answers the size of the set, which is how many labels there are. The loop goes from one
// control of the set to the next and stores eight bytes for each: its label, and blanks over blanks. The compiler makes one store
// of them.
pub fn write_column(code: usize, labels: &Labels, at: usize, out: &mut [u8]) -> usize
    requires { Room code 143 at out.old }
    ensures value { result ≡ size code }
    ensures writes { Writes out.old at (filled 143 (labelled (labels_in labels.now.labels.now) code)) (at + 143) out.new }
{
    write_blanks(at, at + COLUMN_WIDTH, out);
    if code == 0 {
        out[at] = b'-';
        return 0;
    }
    let mut rest = code;
    let mut place = at;
    let mut size = 0;
    while 0 < rest {
        let label = labels.labels[lowest_control(rest)];
        write_bytes(&label.name, place, out);
        rest = rest & (rest - 1);
        place = write_joint(rest, place + label.length, out);
        size += 1;
    }
    size
}
