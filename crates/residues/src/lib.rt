// Residues: numbers modulo m. The modulus with its limits, sum, difference and product of two residues, sums of products
// that are divided once, and reciprocals. What bounds the numbers inside is seen in this crate alone, but for how many products
// a sum may have.
#![tactic(auto)]

ghost use Rattle.std.specs.Prelude.{◌≡◌, ◌+◌, ◌-◌, ◌*◌, ◌<◌};
ghost use Rattle.residues.specs.Values.{IsModulus, Below, Residue, Back};

use refusals::Refusal;

// Only `Modulus::new` makes one.
#[derive(Clone, Copy)]
pub struct Modulus {
    value: u32,
    // the residue of 2 to the 64
    two_64: u64,
    ghost valid: { IsModulus value two_64 },
}

// A sum of products: the lowest 64 bits, and how often they were carried over.
#[derive(Clone, Copy)]
pub struct Accumulator {
    low: u64,
    carries: u32,
}

// Why a number has no reciprocal: a divisor above 1 of the number and of the modulus.
#[derive(Clone, Copy)]
pub struct CommonDivisor(pub u32);

// Two remainders of Euclid's algorithm for m and a, and for each a residue which times a gives it modulo m.
#[derive(Clone, Copy)]
struct Remainders {
    larger: u32,
    smaller: u32,
    of_larger: u32,
    of_smaller: u32,
}

impl Modulus {
    ghost use Rattle.residues.specs.Moduli.{IsModulusOf};
    ghost use Rattle.residues.specs.Reciprocals.{ReciprocalIs};

    pub const LOWEST: u32 = 2;

    pub const LARGEST: u32 = 4294967295;

    pub fn new(m: u32) -> Result<Modulus, Refusal>
        ensures { IsModulusOf m result }
    {
        if m < Modulus::LOWEST {
            return Err(Refusal::Modulus);
        }
        if Modulus::LARGEST < m {
            return Err(Refusal::Modulus);
        }
        let wide = m as u64;
        Ok(Modulus {
            value: m,
            two_64: (u64::MAX % wide + 1) % wide,
        })
    }

    pub fn value(self) -> u32
        ensures { result ≡ self.value }
    {
        self.value
    }

    pub fn reduce(self, x: u64) -> u32
        ensures { Residue self.value x result }
    {
        let m = self.value as u64;
        (x % m) as u32
    }

    // The sum is compared before it is formed, so that it fits under every modulus of 32 bits.
    pub fn add(self, a: u32, b: u32) -> u32
        requires { Below self.value a b }
        ensures { Residue self.value (a + b) result }
    {
        let lacking = self.value - b;
        if a >= lacking { a - lacking } else { a + b }
    }

    // What a needs so that b can be taken off it.
    fn back(self, a: u32, b: u32) -> u32
        ensures { Back self.value a b result }
    {
        if a < b { self.value } else { 0 }
    }

    // The one choice is made beside the difference, not behind it.
    pub fn subtract(self, a: u32, b: u32) -> u32
        requires { Below self.value a b }
        ensures { Residue self.value (a + (self.value - b)) result }
    {
        let up = (a as u64) + (self.back(a, b) as u64);
        (up - (b as u64)) as u32
    }

    pub fn multiply(self, a: u32, b: u32) -> u32
        requires { Below self.value a b }
        ensures { Residue self.value (a * b) result }
    {
        let product = (a as u64) * (b as u64);
        self.reduce(product)
    }

    // The residue that times a is 1, or why there is none: Euclid's algorithm.
    pub fn reciprocal(self, a: u32) -> Result<u32, CommonDivisor>
        requires { a < self.value }
        ensures { ReciprocalIs self.value a result }
    {
        let mut pair = Remainders {
            larger: self.value,
            smaller: a,
            of_larger: 0,
            of_smaller: 1,
        };
        while 1 < pair.smaller {
            pair = pair.next(self);
        }
        if pair.smaller == 1 {
            Ok(pair.of_smaller)
        } else {
            Err(CommonDivisor(pair.larger))
        }
    }
}

impl Remainders {
    ghost use Rattle.residues.specs.Reciprocals.{InRange, Next};

    // The quotient is below m, since the smaller remainder is above 1.
    fn next(self, modulus: Modulus) -> Remainders
        requires lt_smaller { 1 < self.smaller }
        requires in_range { InRange modulus.value self }
        ensures { Next modulus.value self result }
    {
        let quotient = self.larger / self.smaller;
        let taken = modulus.multiply(quotient, self.of_smaller);
        Remainders {
            larger: self.smaller,
            smaller: self.larger % self.smaller,
            of_larger: self.of_smaller,
            of_smaller: modulus.subtract(self.of_larger, taken),
        }
    }
}

impl Accumulator {
    ghost use Rattle.residues.specs.Accumulated.{held, Sound, Started, Added};

    pub fn start() -> Accumulator
        ensures { Started result }
    {
        Accumulator { low: 0, carries: 0 }
    }

    pub fn add_product(self, a: u32, b: u32) -> Accumulator
        requires { Sound self }
        ensures { Added self (a * b) result }
    {
        let term = (a as u64) * (b as u64);
        let (low, carried) = self.low.overflowing_add(term);
        Accumulator {
            low,
            carries: self.carries + carried as u32,
        }
    }

    // Each carry counts as the residue of 2 to the 64. A last one hardly ever comes, so that the branch is foreseen.
    pub fn residue(self, modulus: Modulus) -> u32
        ensures { Residue modulus.value (held self) result }
    {
        let more = (self.carries as u64) * modulus.two_64;
        let (low, carried) = self.low.overflowing_add(more);
        if carried {
            modulus.reduce(low + modulus.two_64)
        } else {
            modulus.reduce(low)
        }
    }
}
