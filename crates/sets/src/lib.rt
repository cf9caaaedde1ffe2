// Sets of controls by their codes, and how many controls a code has. A code and a size are kinds of their own, so that one
// is never taken for the other.
#![tactic(auto)]

ghost use Rattle.std.specs.Prelude.{◌≡◌, ◌+◌, ◌<◌};
ghost use Rattle.definitions.specs.Sets.{size};
ghost use Rattle.sets.specs.Sizes.{code_limit};

// 01's code of a set, the source's h.
#[derive(Clone, Copy, PartialEq, Eq, PartialOrd, Ord)]
pub struct SetCode(pub usize);

// 01's size of a set, the source's k.
#[derive(Clone, Copy, PartialEq, Eq, PartialOrd, Ord)]
pub struct SetSize(pub usize);

impl SetCode {
    // The number of ones in the code.
    pub fn size(self) -> SetSize
        requires { self.0 < code_limit }
        ensures { result.0 ≡ size self.0 }
    {
        let ones = self.0.count_ones() as usize;
        SetSize(ones)
    }

    // The size of the next code, from its own size: where one is added, the ones at the end become zeros and the zero above them a
    // one. A loop over all codes asks this, which is cheaper than to count all ones of each.
    pub fn next_size(self, own: SetSize) -> SetSize
        requires self_lt_code_limit { self.0 < code_limit }
        requires own_value { own.0 ≡ size self.0 }
        ensures { result.0 ≡ size (self.0 + 1) }
    {
        let next = self.0 + 1;
        SetSize(own.0 + 1 - (next.trailing_zeros() as usize))
    }
}
