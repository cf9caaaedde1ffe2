// How many entries a table has, and how many of the workspace (01: pad) a call uses; clearing these.
#![tactic(auto)]

ghost use Rattle.std.specs.Prelude.{◌≡◌, ◌^◌, ◌≤◌, length};
ghost use Rattle.definitions.specs.Limits.{most_controls, pad_length};
ghost use Rattle.definitions.specs.Refusals.{cleared};

pub fn power_of_two(k: usize) -> usize
    requires { k ≤ most_controls }
    ensures { result ≡ 2 ^ k }
{
    1 << k
}

// How many entries a table of n controls has.
pub fn power(n: u32) -> usize
    requires { n ≤ most_controls }
    ensures { result ≡ 2 ^ n }
{
    power_of_two(n as usize)
}

// How many entries of the workspace a call uses (01: W).
pub fn pad_length(n: u32) -> usize
    requires { n ≤ most_controls }
    ensures { result ≡ pad_length n }
{
    let k = n as usize;
    (2 * k + 4) * power(n)
}

// The first entries of the workspace become 0.
pub fn clear(long: usize, workspace: &mut [u32])
    requires { long ≤ length workspace.old }
    ensures { workspace.new ≡ cleared long workspace.old }
{
    workspace[..long].fill(0);
}
