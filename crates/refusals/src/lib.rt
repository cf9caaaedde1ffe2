// Why a call is refused: 01's words of refusal, with those of 02, and the number of each.
#![tactic(auto)]

ghost use Rattle.std.specs.Prelude.{◌≡◌};
ghost use Rattle.refusals.specs.Words.{word, word_of};

// A word of refusal. Its number is the order in which it stands here, from 1.
#[derive(Clone, Copy, Debug, PartialEq, Eq)]
pub enum Refusal {
    Panel,
    Modulus,
    Length,
    Pad,
    Entry,
    Start,
    Halving,
    Group,
    Tail,
    Short,
    Empty,
    Code,
    Recipe,
    Nesting,
    Gap,
    Zero,
    Label,
    Equal,
}

impl From<Refusal> for u32 {
    ghost from_gives = { λ refusal number. number ≡ word refusal };

    fn from(refusal: Refusal) -> u32 {
        match refusal {
            Refusal::Panel => 1,
            Refusal::Modulus => 2,
            Refusal::Length => 3,
            Refusal::Pad => 4,
            Refusal::Entry => 5,
            Refusal::Start => 6,
            Refusal::Halving => 7,
            Refusal::Group => 8,
            Refusal::Tail => 9,
            Refusal::Short => 10,
            Refusal::Empty => 11,
            Refusal::Code => 12,
            Refusal::Recipe => 13,
            Refusal::Nesting => 14,
            Refusal::Gap => 15,
            Refusal::Zero => 16,
            Refusal::Label => 17,
            Refusal::Equal => 18,
        }
    }
}

// The number of a call: 0 if it is accepted, else the number of its refusal.
pub fn number(answer: Result<(), Refusal>) -> u32
    ensures { result ≡ word_of answer }
{
    match answer {
        Ok(()) => 0,
        Err(refusal) => u32::from(refusal),
    }
}
