// The stack machine that works a recipe out from its code, in lent memory. The top of the stack is the result; the values below it stand
// in places of the pad behind the workspace. What the result held at first is put below them all, so that it can be given back.
#![tactic(auto)]

ghost use Rattle.std.specs.Prelude.{◌≡◌, ◌≤◌, ◌^◌, length};
ghost use Rattle.definitions.specs.Limits.{most_controls};
ghost use Rattle.definitions.specs.Recipes.{Letter, Tree, sum, Choice, worth};
ghost use Rattle.refusals.specs.Words.{word_of};
ghost use Rattle.recipe_theory.specs.Postfix.{postfix};
ghost use Rattle.recipe_theory.specs.Stack.{instruction_of, other, Can, height_after, Fits};
ghost use Rattle.recipe_operations.specs.Operands.{Saved};
ghost use Rattle.recipe_machine.specs.Memory.{letter_of, lent, meant_by, place_of, first_held, Space, Ready, Lettered, Stepped, Worked};

use pads::{pad_length, power};
use pointwise::copy;
use recipe_operations::{Function, Sign, apply, combine, restore, save};
use refusals::Refusal;
use residues::Modulus;

// The names of the lent tables.
#[derive(Clone, Copy, Debug, PartialEq, Eq)]
pub enum Name {
    A,
    B,
    C,
    D,
}

// The lent tables.
#[derive(Clone, Copy)]
pub struct Tables<'a> {
    pub a: &'a [u32],
    pub b: &'a [u32],
    pub c: &'a [u32],
    pub d: &'a [u32],
}

impl<'a> Tables<'a> {
    fn named(self, name: Name) -> &'a [u32]
        ensures { result.now ≡ lent self.entry (letter_of name) }
    {
        match name {
            Name::A => self.a,
            Name::B => self.b,
            Name::C => self.c,
            Name::D => self.d,
        }
    }
}

#[derive(Clone, Copy, Debug, PartialEq, Eq)]
pub enum Code {
    Push(Name),
    Combine(Sign),
    Apply(Function),
}

// What a byte of code means. (The reader writes bytes, and its theory speaks of them. No `TryFrom`: only bytes with a meaning
// come here, so that its refusal would be a way out that no run takes.)
#[tactic(auto, unfolding(recipe_theory::specs::Stack::instruction_of))]
fn code_of(byte: u8) -> Code
    requires { instruction_of byte ≡ other → ⊥ }
    ensures { instruction_of byte ≡ meant_by result }
{
    match byte {
        b'A' => Code::Push(Name::A),
        b'B' => Code::Push(Name::B),
        b'C' => Code::Push(Name::C),
        b'D' => Code::Push(Name::D),
        b'+' => Code::Combine(Sign::Plus),
        b'-' => Code::Combine(Sign::Minus),
        b'*' => Code::Combine(Sign::Times),
        b'|' => Code::Combine(Sign::Union),
        b'^' => Code::Combine(Sign::Xor),
        b'e' => Code::Apply(Function::Exponential),
        b'l' => Code::Apply(Function::Logarithm),
        // b'i': no other byte is left
        _ => Code::Apply(Function::Inverse),
    }
}

// How many values there are after an instruction.
fn height_after(code: Code, height: usize) -> usize
    requires { Can (meant_by code) height }
    ensures { result ≡ height_after (meant_by code) height }
{
    match code {
        Code::Push(_) => height + 1,
        Code::Combine(_) => height - 1,
        Code::Apply(_) => height,
    }
}

// Where a place of the pad is, behind the workspace.
pub fn place_of(n: u32, k: usize) -> usize
    requires n_le_most_controls { n ≤ most_controls }
    requires k_bound { k ≤ 32 }
    ensures { result ≡ place_of n k }
{
    pad_length(n) + k * power(n)
}

// A lent table on top of the stack: what was on top goes to the place of its height.
fn push(table: &[u32], n: u32, height: usize, res: &mut [u32], pad: &mut [u32])
    requires space { Space n height res.old pad.old }
    requires table_len { length table.now ≡ 2 ^ n }
    ensures res_after { res.new ≡ table.now }
    ensures saved { Saved (place_of n height) res.old pad.old pad.new }
{
    save(place_of(n, height), res, pad);
    copy(table, res);
}

// One instruction.
fn step(
    code: Code,
    n: u32,
    modulus: Modulus,
    height: usize,
    tables: Tables,
    res: &mut [u32],
    pad: &mut [u32],
) -> Result<(), Refusal>
    requires ready { Ready n modulus height res.old pad.old }
    requires lettered { Lettered n modulus.value (lent tables) }
    requires can { Can (meant_by code) height }
    ensures { (by : Choice n modulus.value) → Stepped n modulus.value by (lent tables.entry) (meant_by code) height res.old pad.old (word_of result) res.new pad.new }
{
    match code {
        Code::Push(name) => {
            push(tables.named(name), n, height, res, pad);
            Ok(())
        }
        Code::Combine(sign) => combine(sign, n, modulus, place_of(n, height - 1), res, pad),
        Code::Apply(function) => apply(function, n, modulus, res, pad),
    }
}

// What the result held at first stands in it again.
fn give_back(n: u32, height: usize, pad: &[u32], res: &mut [u32])
    requires { Space n height res.old pad.now }
    ensures { res.new ≡ first_held n height res.old pad.now }
{
    if 0 < height {
        restore(place_of(n, 0), pad, res);
    }
}

// The recipe of some code, worked out into the result; if a call refuses, the result as it came.
pub fn work(
    n: u32,
    modulus: Modulus,
    codes: &[u8],
    tables: Tables,
    res: &mut [u32],
    pad: &mut [u32],
) -> Result<(), Refusal>
    requires ready { Ready n modulus 0 res.old pad.old }
    requires lettered { Lettered n modulus.value (lent tables) }
    requires fits { Fits codes.now 0 }
    ensures { (by : Choice n modulus.value) (t : Tree sum) → codes.now ≡ postfix t → Worked (worth n modulus.value by (lent tables.entry) t) res.old (word_of result) res.new }
{
    let mut height = 0;
    for byte in codes {
        let code = code_of(*byte);
        if let Err(refusal) = step(code, n, modulus, height, tables, res, pad) {
            give_back(n, height, pad, res);
            return Err(refusal);
        }
        height = height_after(code, height);
    }
    Ok(())
}
