// The subset product of a table at one place of a workspace and of a lent table, into another place of the same workspace: the rows in
// front, and the tables behind them.
#![tactic(auto)]

ghost use Rattle.ranked_within.specs.Within.{WithinReady, WithinMade};

use pads::power_of_two;
pub use ranked::rows_length;
use ranked::{lay_out_both, multiply_both};
use residues::Modulus;

// The product of the table of k controls at one place of the workspace and b, into another place, or the same one. The rows
// stand in front of both, and nothing else behind them changes.
pub fn multiply_within(
    k: usize,
    modulus: Modulus,
    source: usize,
    target: usize,
    b: &[u32],
    workspace: &mut [u32],
)
    requires { WithinReady modulus.value k source target b.now workspace.old }
    ensures { WithinMade modulus.value k source target b.now workspace.old workspace.new }
{
    let used = rows_length(k);
    let size = power_of_two(k);
    let (rows, tables) = workspace.split_at_mut(used);
    let from = source - used;
    let to = target - used;
    lay_out_both(k, &tables[from..from + size], b, rows);
    multiply_both(k, modulus, &mut tables[to..to + size], rows);
}
