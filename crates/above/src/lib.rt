// Whether bytes are above a given one, in steps of sixteen. In byte order the bytes themselves compare, which compiles to a few vector
// instructions; in another order each is looked up in the ranks, with no way out between them.
#![tactic(auto)]

ghost use Rattle.std.specs.Prelude.{true, ◌≡◌, ◌≤◌, ◌+◌, length};
ghost use Rattle.ranks.specs.Ranks.{rank, ranked};
ghost use Rattle.above.specs.Above.{Above, AboveEnd, AboveBlock};

use symbols::Ranking;

// Whether the sixteen bytes from j are all above c, in byte order.
fn above_bytes(s: &[u8], j: usize, c: u8) -> bool
    requires { j + 16 ≤ length s.now }
    ensures { result ≡ true → Above s.now c j (j + 16) }
{
    let mut all = true;
    for u in 0..16 {
        all &= c < s[j + u];
    }
    all
}

// Whether the ranks of the sixteen bytes from j are all above d.
fn above_ranks(s: &[u8], ranks: &[u8], j: usize, d: u8) -> bool
    requires { (length ranks.now ≡ 256) × (j + 16 ≤ length s.now) }
    ensures { result ≡ true → Above (ranked ranks.now s.now) d j (j + 16) }
{
    let mut all = true;
    for u in 0..16 {
        let at = usize::from(s[j + u]);
        let x = ranks[at];
        all &= d < x;
    }
    all
}

// How far from j on the ranks are above that of c, block by block.
pub fn ranks_above(s: &[u8], ranks: &[u8], j: usize, c: u8) -> usize
    requires { (length ranks.now ≡ 256) × (j ≤ length s.now) }
    ensures { (j ≤ result) × (result ≤ length s.now) × Above (ranked ranks.now s.now) (rank ranks.now c) j result }
{
    let d = ranks[usize::from(c)];
    for k in (j..s.len()).step_by(16) {
        if s.len() - k < 16 || !above_ranks(s, ranks, k, d) {
            return k;
        }
    }
    s.len()
}

// Where blocks of bytes above c may end that begin at j: in another order, where each byte is looked up, they do; in byte order the end of the
// string, and `above_block` tells of each.
pub fn above_end(s: &[u8], ranks: Ranking, j: usize, c: u8) -> usize
    requires { j ≤ length s.now }
    ensures { AboveEnd ranks.entry.list.now s.now c j result }
{
    if ranks.list.len() == 0 {
        return s.len();
    }
    ranks_above(s, ranks.list, j, c)
}

// Whether the sixteen bytes from j are all above c, in byte order; in another order `above_end` has told it.
pub fn above_block(s: &[u8], ranks: Ranking, j: usize, c: u8) -> bool
    requires { j + 16 ≤ length s.now }
    ensures { AboveBlock ranks.entry.list.now s.now c j result }
{
    if 0 < ranks.list.len() {
        return true;
    }
    above_bytes(s, j, c)
}
