// How far a word grows over blocks in another order than byte order: sixteen ranks are looked up with no way out between them, and where runs of
// the word's first byte break off is told of the bytes, sixteen at a time.
#![tactic(auto)]

ghost use Rattle.std.specs.Prelude.{true, ◌≡◌, ◌≤◌, ◌+◌, ◌-◌, length};
ghost use Rattle.words.specs.Scan.{Scan};
ghost use Rattle.ranks.specs.Ranks.{rank, ranked};
ghost use Rattle.rank_leaps.specs.Broken.{Broken, AtLeast};

use above::ranks_above;
use rising::{breaks, last_other};
use symbols::Ranking;

// Whether no eight bytes c begin at one of the sixteen places from j on.
fn broken_block(s: &[u8], j: usize, c: u8) -> bool
    requires { j + 23 ≤ length s.now }
    ensures { result ≡ true → Broken s.now c j (j + 16) }
{
    let mut all = true;
    for u in 0..16 {
        all &= (s[j + u] != c) | breaks(s, j + u, c);
    }
    all
}

// Whether the ranks of the sixteen bytes from j on are all d or above.
// No closure shared with `above`'s `above_ranks`: it would bring a third definition, beside `Above` and `AtLeast`, for a loop of three lines.
fn least_ranks(s: &[u8], ranks: &[u8], j: usize, d: u8) -> bool
    requires { (length ranks.now ≡ 256) × (j + 16 ≤ length s.now) }
    ensures { result ≡ true → AtLeast (ranked ranks.now s.now) d j (j + 16) }
{
    let mut all = true;
    for u in 0..16 {
        let at = usize::from(s[j + u]);
        let x = ranks[at];
        all &= d <= x;
    }
    all
}

// How far from j on no eight bytes c begin and no rank is below that of c, block by block.
fn ranks_run(s: &[u8], ranks: &[u8], j: usize, c: u8) -> usize
    requires { (length ranks.now ≡ 256) × (j ≤ length s.now) }
    ensures { (j ≤ result) × (result ≤ length s.now) × Broken s.now c j result × AtLeast (ranked ranks.now s.now) (rank ranks.now c) j result }
{
    let d = ranks[usize::from(c)];
    for k in (j..s.len()).step_by(16) {
        if s.len() - k < 23 || !broken_block(s, k, c) || !least_ranks(s, ranks, k, d) {
            return k;
        }
    }
    s.len()
}

// Where the Lyndon word from i to j, of eight bytes or more, ends after it has grown over blocks of ranks above its first, or, where the word begins
// with eight bytes c, over blocks in which no eight begin and no rank is below.
#[tactic(auto, using(ranks::proofs::Ranked::length_ranked))]
pub fn grow_ranks(s: &[u8], ranks: Ranking, i: usize, j: usize) -> usize
    requires { (length ranks.list.now ≡ 256) × (i + 8 ≤ j) × Scan (ranked ranks.list.now s.now) i j (j - i) }
    ensures { (j ≤ result) × Scan (ranked ranks.entry.list.now s.now) i result (result - i) }
{
    let c = s[i];
    if breaks(s, i, c) {
        return ranks_above(s, ranks.list, j, c);
    }
    let k = ranks_run(s, ranks.list, j, c);
    last_other(s, j, k, c)
}
