// A label sheet read: all of it is tested, and its labels are kept.
#![tactic(auto)]

ghost use Rattle.std.specs.Prelude.{◌≡◌, ◌≤◌, ◌<◌, ◌+◌, drop};
ghost use Rattle.definitions.specs.Limits.{most_controls, longest_label};
ghost use Rattle.definitions.specs.Outcomes.{and_then};
ghost use Rattle.definitions.specs.Sheets.{read_bytes, read_label, read_labels, among, equal_word, read_sheet, label_of};
ghost use Rattle.refusals.specs.Words.{word_of};
ghost use Rattle.label_sheet.specs.LabelArrays.{labels_in, Held, Ready};
ghost use Rattle.label_sheet.specs.SheetAnswers.{ByteRead, LabelRead, LabelsRead, to_tail, sheet_outcome};

mod labels;

pub use labels::{LABELS, LONGEST_LABEL, Label, Labels};
use number_groups::read_number;
use refusals::Refusal;

// A label that was read, and the place behind it.
#[derive(Clone, Copy)]
struct LabelAt {
    label: Label,
    next: usize,
}

// The byte of a label that stands at a place: 8 at the end of the sheet, and 17 unless it is an ASCII letter or digit.
fn read_byte(sheet: &[u8], at: usize) -> Result<u8, Refusal>
    ensures { ByteRead sheet.now at result }
{
    let byte = *sheet.get(at).ok_or(Refusal::Group)?;
    if byte.is_ascii_alphanumeric() {
        Ok(byte)
    } else {
        Err(Refusal::Label)
    }
}

// So many bytes of a label from a place on.
fn read_bytes(length: usize, sheet: &[u8], at: usize) -> Result<LabelAt, Refusal>
    requires { length ≤ longest_label }
    ensures { LabelRead sheet.now (read_bytes length (drop at sheet.now)) result }
{
    let mut name = [b' '; LONGEST_LABEL];
    let mut place = at;
    for i in 0..length {
        name[i] = read_byte(sheet, place)?;
        place += 1;
    }
    Ok(LabelAt {
        label: Label { name, length },
        next: place,
    })
}

// The label that stands at a place: its length, 8, then 17, and so many bytes.
fn read_label(sheet: &[u8], at: usize) -> Result<LabelAt, Refusal>
    ensures { LabelRead sheet.now (read_label (drop at sheet.now)) result }
{
    let length = read_number(sheet, at)?;
    let count = length.value as usize;
    if count < 1 {
        return Err(Refusal::Label);
    }
    if LONGEST_LABEL < count {
        return Err(Refusal::Label);
    }
    read_bytes(count, sheet, length.next)
}

// All labels, and nothing behind them (9).
fn read_labels(sheet: &[u8], labels: &mut [Label; LABELS]) -> Result<(), Refusal>
    ensures { LabelsRead (and_then (read_labels most_controls sheet.now) to_tail) result labels.new }
{
    let mut place = 0;
    for control in 0..LABELS {
        let read = read_label(sheet, place)?;
        labels[control] = read.label;
        place = read.next;
    }
    if place < sheet.len() {
        return Err(Refusal::Tail);
    }
    Ok(())
}

// Whether the label of a control stands again behind it.
fn stands_again(labels: &[Label; LABELS], control: usize) -> bool
    requires held { Held labels.now }
    requires control_lt_most_controls { control < most_controls }
    ensures { result ≡ among (label_of (labels_in labels.now) control) (drop (control + 1) (labels_in labels.now)) }
{
    for other in control + 1..LABELS {
        if labels[control].name == labels[other].name {
            return true;
        }
    }
    false
}

// 18 if two labels are equal.
fn check_different(labels: &[Label; LABELS]) -> Result<(), Refusal>
    requires { Held labels.now }
    ensures { word_of result ≡ equal_word (labels_in labels.now) }
{
    for control in 0..LABELS {
        if stands_again(labels, control) {
            return Err(Refusal::Equal);
        }
    }
    Ok(())
}

// The labels of a sheet if it is accepted, put where the caller keeps them; else the first refusal.
pub fn read_sheet(sheet: &[u8], labels: &mut [Label; LABELS]) -> Result<(), Refusal>
    ensures outcome { sheet_outcome result labels.new ≡ read_sheet sheet.now }
    ensures ready { word_of result ≡ 0 → Ready labels.new }
{
    read_labels(sheet, labels)?;
    check_different(labels)
}
