// The exponential of a table, worked where it stands, in the workspace that it is lent.
#![tactic(auto)]

ghost use Rattle.std.specs.Prelude.{◌≡◌, suc};
ghost use Rattle.definitions.specs.Partitions.{exponential_table};
ghost use Rattle.exponential.specs.Ready.{Ready, upper_filled};

use pads::power_of_two;
use ranked::{lay_out, multiply_both};
use residues::Modulus;

// The upper half becomes its product with the lower half, which is finished. Both are laid out first, one after the other.
fn fill_upper(p: usize, modulus: Modulus, table: &mut [u32], workspace: &mut [u32])
    requires { Ready (suc p) modulus.value table.old workspace.old }
    ensures { table.new ≡ upper_filled p modulus.value table.old }
{
    let mid = power_of_two(p);
    lay_out(p, 0, &table[..mid], workspace);
    lay_out(p, 1, &table[mid..], workspace);
    multiply_both(p, modulus, &mut table[mid..], workspace);
}

// A table of q controls becomes its exponential, by its halves.
pub fn exponential_table(q: usize, modulus: Modulus, table: &mut [u32], workspace: &mut [u32])
    requires { Ready q modulus.value table.old workspace.old }
    ensures { table.new ≡ exponential_table q modulus.value table.old }
{
    if q == 0 {
        table[0] = 1;
    } else {
        let p = q - 1;
        let mid = power_of_two(p);
        exponential_table(p, modulus, &mut table[..mid], workspace);
        fill_upper(p, modulus, table, workspace);
    }
}
