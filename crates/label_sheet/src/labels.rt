// Labels as they are kept: filled with blanks, so that a line takes one by one store.
ghost use Rattle.label_sheet.specs.LabelArrays.{Ready, ready-prop};

// How many labels a sheet has, and the most bytes of a label.
pub const LABELS: usize = 16;

pub const LONGEST_LABEL: usize = 8;

// A label: its bytes, filled with blanks to eight, and how many they are.
#[derive(Clone, Copy)]
pub struct Label {
    pub name: [u8; LONGEST_LABEL],
    pub length: usize,
}

// The labels of an accepted sheet, one for each control, lent from where a caller keeps them: to move so many, a C host would
// have to bring memcpy.
#[derive(Clone, Copy)]
pub struct Labels<'a> {
    pub labels: &'a [Label; LABELS],
    ghost ready: { Ready labels.now } by { ready-prop labels.now },
}
