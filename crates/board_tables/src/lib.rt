// The three tables of a board, in place: those of a fresh one, and what an accepted change does to each.
#![tactic(auto)]

ghost use Rattle.std.specs.Prelude.{◌≡◌, ◌+◌, ◌*◌, ◌<◌, length};
ghost use Rattle.definitions.specs.Sums.{tabulate};
ghost use Rattle.definitions.specs.Partitions.{unit};
ghost use Rattle.definitions.specs.Boards.{board, added_at, raised_over};
ghost use Rattle.residues.specs.Moduli.{Below, Residue};
ghost use Rattle.board_tables.specs.Ready.{TableReady, BoardReady};

use pads::power;
use residues::Modulus;

// 0 everywhere: `fill` in the words of a board.
pub fn fill_zeros(table: &mut [u32])
    ensures { table.new ≡ tabulate (length table.old) (λ S. 0) }
{
    table.fill(0);
}

// 1 at the empty set and 0 elsewhere.
pub fn fill_unit(table: &mut [u32])
    requires { 0 < length table.old }
    ensures { table.new ≡ tabulate (length table.old) unit }
{
    fill_zeros(table);
    table[0] = 1;
}

// x and a product, with one division: there is room for one more residue beside a product of two.
fn add_product(modulus: Modulus, x: u32, a: u32, b: u32) -> u32
    requires below { Below modulus.value a b }
    requires x_lt_value { x < modulus.value }
    ensures { Residue modulus.value (x + a * b) result }
{
    let product = (a as u64) * (b as u64);
    modulus.reduce((x as u64) + product)
}

// The entry of each set that contains `set` grows by the weight times the entry of that set without it. In rising code
// the next one after t is (t + 1) | set. What is read is of sets that do not contain `set`, so it is old.
fn raise(n: u32, modulus: Modulus, set: usize, weight: u32, table: &mut [u32])
    requires { TableReady n modulus set weight table.old }
    ensures { table.new ≡ raised_over n modulus.value set weight table.old }
{
    let long = power(n);
    let mut t = set;
    while t < long {
        let rest = t - set;
        let y = table[rest];
        let x = table[t];
        table[t] = add_product(modulus, x, weight, y);
        t = (t + 1) | set;
    }
}

// An accepted change: this weight is added at the set, and i is raised by the opposite weight.
pub fn change(
    n: u32,
    modulus: Modulus,
    set: usize,
    weight: u32,
    opposite: u32,
    a: &mut [u32],
    e: &mut [u32],
    i: &mut [u32],
)
    requires { BoardReady n modulus set weight opposite (board a.old e.old i.old) }
    ensures a_after { a.new ≡ added_at n modulus.value set weight a.old }
    ensures e_after { e.new ≡ raised_over n modulus.value set weight e.old }
    ensures i_after { i.new ≡ raised_over n modulus.value set opposite i.old }
{
    let x = a[set];
    a[set] = modulus.add(x, weight);
    raise(n, modulus, set, weight, e);
    raise(n, modulus, set, opposite, i);
}
