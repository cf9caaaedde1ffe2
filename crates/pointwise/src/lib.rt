// Tables entry by entry: a copy, a product, a factor.
#![tactic(auto)]

ghost use Rattle.std.specs.Prelude.{◌≡◌, ◌*◌, ◌<◌, length};
ghost use Rattle.definitions.specs.Sums.{at};
ghost use Rattle.definitions.specs.Products.{residues};
ghost use Rattle.theory.specs.Convolution.{point_table};
ghost use Rattle.pointwise.specs.Tables.{Ready};

use residues::Modulus;

// A loop: for `copy_from_slice` a C host would have to bring memmove.
pub fn copy(from: &[u32], to: &mut [u32])
    requires { length from.now ≡ length to.old }
    ensures { to.new ≡ from.now }
{
    for (i, entry) in to.iter_mut().enumerate() {
        *entry = from[i];
    }
}

// Entry by entry, the table times another.
pub fn multiply(n: u32, modulus: Modulus, other: &[u32], table: &mut [u32])
    requires ready { Ready n modulus other.now }
    requires ready_2 { Ready n modulus table.old }
    ensures { table.new ≡ point_table n modulus.value table.old other.now }
{
    // with the index: of what is written through a `zip` of `iter_mut` a proof learns nothing
    for (i, x) in table.iter_mut().enumerate() {
        *x = modulus.multiply(*x, other[i]);
    }
}

// Every entry times a factor.
pub fn scale(n: u32, modulus: Modulus, factor: u32, table: &mut [u32])
    requires factor_lt_value { factor < modulus.value }
    requires ready { Ready n modulus table.old }
    ensures { table.new ≡ residues n modulus.value (λ S. factor * at table.old S) }
{
    for x in table.iter_mut() {
        *x = modulus.multiply(factor, *x);
    }
}
