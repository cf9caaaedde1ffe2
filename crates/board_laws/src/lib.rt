// The law of boards: a fresh board and then any list of changes, whatever the lent memory held.
#![tactic(auto)]

ghost use Rattle.std.specs.Prelude.{◌≡◌, set};
ghost use Rattle.definitions.specs.Boards.{board};
ghost use Rattle.refusals.specs.Words.{word_of};
ghost use Rattle.board_laws.specs.Kinds.{kind_of};
ghost use Rattle.board_laws.specs.Law.{change_of, lent_changes, ChangeMade, ChangesMade, Lawful};

use board_calls::{board_add, board_fresh, board_take};
use refusals::Refusal;

// What a change does with its weight.
#[derive(Clone, Copy)]
enum Kind {
    Add,
    Take,
}

// A lent list holds numbers: 0 adds, every other takes.
impl From<u32> for Kind {
    ghost from_gives = { λ number kind. kind ≡ kind_of number };

    fn from(number: u32) -> Kind {
        if number == 0 { Kind::Add } else { Kind::Take }
    }
}

// One change, of a lent kind.
fn make_change(
    n: u32,
    m: u32,
    kind: u32,
    set: u32,
    weight: u32,
    a: &mut [u32],
    e: &mut [u32],
    i: &mut [u32],
) -> Result<(), Refusal>
    ensures { ChangeMade n m (change_of kind set weight) (board a.old e.old i.old) (word_of result) (board a.new e.new i.new) }
{
    match Kind::from(kind) {
        Kind::Add => board_add(n, m, set, weight, a, e, i),
        Kind::Take => board_take(n, m, set, weight, a, e, i),
    }
}

// The number at its place, if there is room for it. (Of what is written by `get_mut` a proof would know the length alone.)
fn keep(number: u32, k: usize, numbers: &mut [u32])
    ensures { numbers.new ≡ set numbers.old k number }
{
    if k < numbers.len() {
        numbers[k] = number;
    }
}

// The changes of three lent lists, as many as the shortest has.
fn make_changes(
    n: u32,
    m: u32,
    kinds: &[u32],
    sets: &[u32],
    weights: &[u32],
    numbers: &mut [u32],
    a: &mut [u32],
    e: &mut [u32],
    i: &mut [u32],
)
    ensures { ChangesMade n m (lent_changes kinds.now sets.now weights.now)
        (board a.old e.old i.old) (board a.new e.new i.new) numbers.old numbers.new }
{
    let count = kinds.len().min(sets.len()).min(weights.len());
    for k in 0..count {
        let change = make_change(n, m, kinds[k], sets[k], weights[k], a, e, i);
        keep(refusals::number(change), k, numbers);
    }
}

// Makes a fresh board in a, e and i, for which it answers; then makes the changes of three lists of any length, of which the shortest
// counts. Kind 0 adds, every other takes. The number of each is kept as far as there is room.
pub fn board_law(
    n: u32,
    m: u32,
    kinds: &[u32],
    sets: &[u32],
    weights: &[u32],
    numbers: &mut [u32],
    a: &mut [u32],
    e: &mut [u32],
    i: &mut [u32],
) -> Result<(), Refusal>
    ensures { Lawful n m (record {
      changes = lent_changes kinds.now sets.now weights.now;
      found = board a.old e.old i.old;
      left = board a.new e.new i.new;
      fresh = word_of result;
      lent = numbers.old;
      kept = numbers.new;
    }) }
{
    let fresh = board_fresh(n, m, a, e, i);
    make_changes(n, m, kinds, sets, weights, numbers, a, e, i);
    fresh
}
