// The call that a line names, made on what a program lends.
#![tactic(auto)]

ghost use Rattle.std.specs.Prelude.{◌≡◌, MatchResult, IsNone};

mod call;

pub use call::{Answer, Call, UnknownCall};
use lines::Case;

// What a case comes to: the answer of its call, the two lists that the call read, and what it left in the result and the pad.
#[derive(Clone, Copy, Debug)]
pub struct Outcome<'a> {
    pub answer: Result<Answer, UnknownCall>,
    pub a: &'a [u32],
    pub b: &'a [u32],
    pub res: &'a [u32],
    pub pad: &'a [u32],
}

impl Outcome<'_> {
    // The number that a program prints; where there is no such call the largest, which no call answers.
    pub fn number(&self) -> u32
        ensures { MatchResult self.now.answer (λ answer. result ≡ answer.number) (λ _. result ≡ 4294967295) }
    {
        self.answer.map_or(u32::MAX, |answer| answer.number)
    }

    // The ceiling of its result, which only the subset product answers.
    pub fn ceiling(&self) -> Option<u32>
        ensures { MatchResult self.now.answer (λ answer. result ≡ answer.ceiling) (λ _. IsNone result) }
    {
        self.answer.ok().and_then(|answer| answer.ceiling)
    }
}

fn named(case: Case) -> Result<Call, UnknownCall> {
    Call::try_from(case.call().ok_or(UnknownCall)?)
}

// The lengths of the result and the pad are those of the case, cut to what there is to lend.
pub fn run<'a>(
    case: Case,
    a: &'a [u32],
    b: &'a [u32],
    res: &'a mut [u32],
    pad: &'a mut [u32],
) -> Outcome<'a> {
    let res = lines::first(res, case.result_length());
    let pad = lines::first(pad, case.pad_length());
    let answer = match named(case) {
        Ok(call) => Ok(call.run(case.controls(), case.modulus(), a, b, res, pad)),
        Err(UnknownCall) => Err(UnknownCall),
    };
    Outcome {
        answer,
        a,
        b,
        res,
        pad,
    }
}
