// How far two strings agree, in steps of sixteen bytes, each of which compiles to a few vector instructions. Whether bytes agree does not depend
// on their ranks. What is left of a block that fails is the byte loops' concern.
#![tactic(auto)]

ghost use Rattle.std.specs.Prelude.{true, ◌≡◌, ◌≤◌, ◌+◌, length};
ghost use Rattle.agreeing.specs.Agrees.{Agrees};

// Whether the sixteen bytes from i of a and from j of b agree.
pub fn agree_block(a: &[u8], i: usize, b: &[u8], j: usize) -> bool
    requires { (i + 16 ≤ length a.now) × (j + 16 ≤ length b.now) }
    ensures { result ≡ true → Agrees a.now i b.now j 16 }
{
    let mut same = true;
    for k in 0..16 {
        same &= a[i + k] == b[j + k];
    }
    same
}

// How many of the `len` bytes from i of a and from j of b agree, two blocks at a time: the first two that do not end the count.
fn agree_pairs(a: &[u8], i: usize, b: &[u8], j: usize, len: usize) -> usize
    requires { (i + len ≤ length a.now) × (j + len ≤ length b.now) }
    ensures { (result ≤ len) × Agrees a.now i b.now j result }
{
    // No `step_by(32)`: it tests the end twice more a turn, which takes twice the time.
    let mut k = 0;
    while 32 <= len - k {
        let first = agree_block(a, i + k, b, j + k);
        let second = agree_block(a, i + k + 16, b, j + k + 16);
        if !(first & second) {
            return k;
        }
        k += 32;
    }
    k
}

// How many of them agree, in whole blocks: the first that does not ends the count. Often it is the first of all, which is tested by itself.
pub fn agree_blocks(a: &[u8], i: usize, b: &[u8], j: usize, len: usize) -> usize
    requires { (i + len ≤ length a.now) × (j + len ≤ length b.now) }
    ensures { (result ≤ len) × Agrees a.now i b.now j result }
{
    if len < 16 {
        return 0;
    }
    if !agree_block(a, i, b, j) {
        return 0;
    }
    // No `step_by(16)`: the end is tested once a turn, as above.
    let mut k = 16 + agree_pairs(a, i + 16, b, j + 16, len - 16);
    while 16 <= len - k {
        if !agree_block(a, i + k, b, j + k) {
            return k;
        }
        k += 16;
    }
    k
}
