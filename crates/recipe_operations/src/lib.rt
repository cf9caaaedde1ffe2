// The calls of a recipe on tables in lent memory, by the cores that the public calls use: a sign on the table at a place of the pad and
// on the result, a function on the result. Each leaves its table in the result. A part of a slice that is written cannot be lent beside
// another, so a core that writes in the pad is given the result and one part of the pad. What must be tested is tested before anything
// is written.
#![tactic(auto)]

ghost use Rattle.std.specs.Prelude.{◌≡◌, ◌+◌, ◌≤◌, length, take, drop};
ghost use Rattle.definitions.specs.Recipes.{plus, minus, times, union, xor, exponential, logarithm, inverse, Choice, sign_call, opening_call};
ghost use Rattle.refusals.specs.Words.{word_of};
ghost use Rattle.ranked_within.specs.Within.{table_at};
ghost use Rattle.recipe_operations.specs.Codes.{sign_of, opening_of};
ghost use Rattle.recipe_operations.specs.Operands.{Operands, Operand, Done, Saved};

use composition::take_result;
use entrywise::{add_entries, subtract_entries};
use exponential::exponential_table;
use pads::pad_length;
use pointwise::{copy, scale};
use ranked_within::multiply_within;
use refusal_words::{test_halving, test_start};
use refusals::Refusal;
use residues::Modulus;
use series_rows::{inverse_table, logarithm_table};
use transform_passes::{Moebius, Walsh, Zeta, convolve_in_place, halved};

#[derive(Clone, Copy, Debug, PartialEq, Eq)]
pub enum Sign {
    Plus,
    Minus,
    Times,
    Union,
    Xor,
}

#[derive(Clone, Copy, Debug, PartialEq, Eq)]
pub enum Function {
    Exponential,
    Logarithm,
    Inverse,
}

// The result is put at a place of the pad.
pub fn save(place: usize, res: &[u32], pad: &mut [u32])
    requires { place + length res.now ≤ length pad.old }
    ensures { Saved place res.now pad.old pad.new }
{
    let end = place + res.len();
    copy(res, &mut pad[place..end]);
}

// The table at a place of the pad is put into the result.
pub fn restore(place: usize, pad: &[u32], res: &mut [u32])
    requires { place + length res.old ≤ length pad.now }
    ensures { res.new ≡ take (length res.old) (drop place pad.now) }
{
    let end = place + res.len();
    copy(&pad[place..end], res);
}

// The sum. The right operand is put behind the left one, so that the result is free for it.
fn add_at(n: u32, modulus: Modulus, place: usize, res: &mut [u32], pad: &mut [u32])
    requires { Operands n modulus place res.old pad.old }
    ensures { Done n (sign_call n modulus.value plus (table_at n place pad.old) res.old) place res.old pad.old 0 res.new pad.new }
{
    let behind = place + res.len();
    save(behind, res, pad);
    let end = behind + res.len();
    add_entries(modulus, &pad[place..behind], &pad[behind..end], res);
}

// The difference, in the same way.
fn subtract_at(n: u32, modulus: Modulus, place: usize, res: &mut [u32], pad: &mut [u32])
    requires { Operands n modulus place res.old pad.old }
    ensures { Done n (sign_call n modulus.value minus (table_at n place pad.old) res.old) place res.old pad.old 0 res.new pad.new }
{
    let behind = place + res.len();
    save(behind, res, pad);
    let end = behind + res.len();
    subtract_entries(modulus, &pad[place..behind], &pad[behind..end], res);
}

// The subset product, worked at the place.
fn multiply_at(n: u32, modulus: Modulus, place: usize, res: &mut [u32], pad: &mut [u32])
    requires { Operands n modulus place res.old pad.old }
    ensures { Done n (sign_call n modulus.value times (table_at n place pad.old) res.old) place res.old pad.old 0 res.new pad.new }
{
    multiply_within(n as usize, modulus, place, place, res, pad);
    restore(place, pad, res);
}

// The union product, worked at the place.
fn union_at(n: u32, modulus: Modulus, place: usize, res: &mut [u32], pad: &mut [u32])
    requires { Operands n modulus place res.old pad.old }
    ensures { Done n (sign_call n modulus.value union (table_at n place pad.old) res.old) place res.old pad.old 0 res.new pad.new }
{
    let end = place + res.len();
    convolve_in_place::<Zeta, Moebius>(n, modulus, &mut pad[place..end], res);
    restore(place, pad, res);
}

// The xor product, worked at the place; refused under an even modulus. What the transform made twice multiplied by is taken out again.
fn xor_at(
    n: u32,
    modulus: Modulus,
    place: usize,
    res: &mut [u32],
    pad: &mut [u32],
) -> Result<(), Refusal>
    requires { Operands n modulus place res.old pad.old }
    ensures { Done n (sign_call n modulus.value xor (table_at n place pad.old) res.old) place res.old pad.old (word_of result) res.new pad.new }
{
    test_halving(modulus.value())?;
    let end = place + res.len();
    convolve_in_place::<Walsh, Walsh>(n, modulus, &mut pad[place..end], res);
    restore(place, pad, res);
    scale(n, modulus, halved(n, modulus), res);
    Ok(())
}

// The exponential of the result, worked where it stands; refused by its start.
fn exponential_of(n: u32, modulus: Modulus, res: &mut [u32], pad: &mut [u32]) -> Result<(), Refusal>
    requires { Operand n modulus res.old pad.old }
    ensures { (by : Choice n modulus.value) → Done n (opening_call n modulus.value by exponential res.old) (length pad.old) res.old pad.old (word_of result) res.new pad.new }
{
    test_start(0, res)?;
    let used = pad_length(n);
    exponential_table(n as usize, modulus, res, &mut pad[..used]);
    Ok(())
}

// The logarithm of the result, worked in the workspace; refused by its start.
fn logarithm_of(n: u32, modulus: Modulus, res: &mut [u32], pad: &mut [u32]) -> Result<(), Refusal>
    requires { Operand n modulus res.old pad.old }
    ensures { (by : Choice n modulus.value) → Done n (opening_call n modulus.value by logarithm res.old) (length pad.old) res.old pad.old (word_of result) res.new pad.new }
{
    test_start(1, res)?;
    let used = pad_length(n);
    logarithm_table(n as usize, modulus, res, &mut pad[..used]);
    take_result(n as usize, pad, res);
    Ok(())
}

// The inverse of the result, worked in the workspace; refused by its start.
fn inverse_of(n: u32, modulus: Modulus, res: &mut [u32], pad: &mut [u32]) -> Result<(), Refusal>
    requires { Operand n modulus res.old pad.old }
    ensures { (by : Choice n modulus.value) → Done n (opening_call n modulus.value by inverse res.old) (length pad.old) res.old pad.old (word_of result) res.new pad.new }
{
    let Ok(u) = modulus.reciprocal(res[0]) else {
        return Err(Refusal::Start);
    };
    let used = pad_length(n);
    inverse_table(n as usize, modulus, u, res, &mut pad[..used]);
    take_result(n as usize, pad, res);
    Ok(())
}

// The call of a sign on the table at a place and on the result.
pub fn combine(
    sign: Sign,
    n: u32,
    modulus: Modulus,
    place: usize,
    res: &mut [u32],
    pad: &mut [u32],
) -> Result<(), Refusal>
    requires { Operands n modulus place res.old pad.old }
    ensures { Done n (sign_call n modulus.value (sign_of sign) (table_at n place pad.old) res.old) place res.old pad.old (word_of result) res.new pad.new }
{
    match sign {
        Sign::Plus => add_at(n, modulus, place, res, pad),
        Sign::Minus => subtract_at(n, modulus, place, res, pad),
        Sign::Times => multiply_at(n, modulus, place, res, pad),
        Sign::Union => union_at(n, modulus, place, res, pad),
        Sign::Xor => return xor_at(n, modulus, place, res, pad),
    }
    Ok(())
}

// The call of a function on the result.
pub fn apply(
    function: Function,
    n: u32,
    modulus: Modulus,
    res: &mut [u32],
    pad: &mut [u32],
) -> Result<(), Refusal>
    requires { Operand n modulus res.old pad.old }
    ensures { (by : Choice n modulus.value) → Done n (opening_call n modulus.value by (opening_of function) res.old) (length pad.old) res.old pad.old (word_of result) res.new pad.new }
{
    match function {
        Function::Exponential => exponential_of(n, modulus, res, pad),
        Function::Logarithm => logarithm_of(n, modulus, res, pad),
        Function::Inverse => inverse_of(n, modulus, res, pad),
    }
}
