// The calls on boards: a fresh one, weight added at a set, weight taken out. The three tables are changed in place.
#![tactic(auto)]

ghost use Rattle.std.specs.Prelude.{◌≡◌};
ghost use Rattle.refusals.specs.Words.{word_of};
ghost use Rattle.definitions.specs.Refusals.{after};
ghost use Rattle.definitions.specs.Boards.{board, added_at, raised_over, lowered_over, lacking, fresh_board, fresh_number, change_number};

use board_checks::{check_change, check_fresh};
use board_tables::{change, fill_unit, fill_zeros};
use refusals::Refusal;

// A fresh board: a all 0, and e and i equal to 1 at the empty set and 0 elsewhere. Costs O(2^n).
// The three tables stay three parameters: C lends them so, and each clause speaks of one of them.
pub fn board_fresh(
    n: u32,
    m: u32,
    a: &mut [u32],
    e: &mut [u32],
    i: &mut [u32],
) -> Result<(), Refusal>
    ensures value { word_of result ≡ fresh_number n m (board a.old e.old i.old) }
    ensures a_after { a.new ≡ after (word_of result) (fresh_board n).weights a.old }
    ensures e_after { e.new ≡ after (word_of result) (fresh_board n).exponential e.old }
    ensures i_after { i.new ≡ after (word_of result) (fresh_board n).inverse i.old }
{
    check_fresh(n, m, a, e, i)?;
    fill_zeros(a);
    fill_unit(e);
    fill_unit(i);
    Ok(())
}

// Adds the weight at the set: a grows by it there; and at each set that contains this one e grows, and i falls, by the weight times
// the old entry of that set without this one. Costs O(2^n).
pub fn board_add(
    n: u32,
    m: u32,
    set: u32,
    weight: u32,
    a: &mut [u32],
    e: &mut [u32],
    i: &mut [u32],
) -> Result<(), Refusal>
    ensures value { word_of result ≡ change_number n m set weight (board a.old e.old i.old) }
    ensures a_after { a.new ≡ after (word_of result) (added_at n m set weight a.old) a.old }
    ensures e_after { e.new ≡ after (word_of result) (raised_over n m set weight e.old) e.old }
    ensures i_after { i.new ≡ after (word_of result) (lowered_over n m set weight i.old) i.old }
{
    let modulus = check_change(n, m, set, weight, a, e, i)?;
    let lacking = modulus.subtract(0, weight);
    change(n, modulus, set as usize, weight, lacking, a, e, i);
    Ok(())
}

// Takes the weight out at the set: a and e get what it lacks to m, and i grows, at each set that contains this one, by the weight
// times the old entry of that set without this one. Costs O(2^n).
pub fn board_take(
    n: u32,
    m: u32,
    set: u32,
    weight: u32,
    a: &mut [u32],
    e: &mut [u32],
    i: &mut [u32],
) -> Result<(), Refusal>
    ensures value { word_of result ≡ change_number n m set weight (board a.old e.old i.old) }
    ensures a_after { a.new ≡ after (word_of result) (added_at n m set (lacking m weight) a.old) a.old }
    ensures e_after { e.new ≡ after (word_of result) (raised_over n m set (lacking m weight) e.old) e.old }
    ensures i_after { i.new ≡ after (word_of result) (raised_over n m set weight i.old) i.old }
{
    let modulus = check_change(n, m, set, weight, a, e, i)?;
    let lacking = modulus.subtract(0, weight);
    change(n, modulus, set as usize, lacking, weight, a, e, i);
    Ok(())
}
