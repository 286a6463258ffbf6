// Duval's scan goes on by blocks: over bytes that agree with those a period back, or over bytes by which a word that has just grown grows on. How
// often blocks are tried is told here too; what is left of a block that fails is the byte loops' concern.
#![tactic(auto)]

ghost use Rattle.std.specs.Prelude.{◌<◌, ◌≤◌, ◌+◌, ◌-◌, length};
ghost use Rattle.ranks.specs.Ranks.{ranked};
ghost use Rattle.words.specs.Scan.{Scan};

use agreeing::agree_blocks;
use byte_leaps::grow_bytes;
use rank_leaps::grow_ranks;
use symbols::Ranking;

// How many bytes are taken one by one before blocks are tried again: few after a leap, and more and more, up to `most`, where none was made.
pub fn next_gap(gap: usize, most: usize, leapt: bool) -> usize
    requires { (0 < gap) × (gap ≤ most) × (8 ≤ most) }
    ensures { (0 < result) × (result ≤ most) }
{
    if leapt {
        return 8;
    }
    gap + gap.min(most - gap)
}

// Where the word from i to j ends after it has grown over blocks.
#[tactic(auto, using(ranks::proofs::Ranked::none_ranked, ranks::proofs::Ranked::ranks_long))]
fn grow(s: &[u8], ranks: Ranking, i: usize, j: usize) -> usize
    requires { (i + 8 ≤ j) × Scan (ranked ranks.list.now s.now) i j (j - i) }
    ensures { (j ≤ result) × Scan (ranked ranks.entry.list.now s.now) i result (result - i) }
{
    if ranks.list.len() != 0 {
        return grow_ranks(s, ranks, i, j);
    }
    grow_bytes(s, i, j)
}

// Where Duval's scan stands: at place j, with the period p.
#[derive(Clone, Copy)]
pub struct Mark {
    pub j: usize,
    pub p: usize,
}

// The scan from i goes on by blocks: the period goes on, or a word that has just grown grows on.
#[tactic(auto, using(ranks::proofs::Ranked::length_ranked))]
pub fn leap(s: &[u8], ranks: Ranking, i: usize, j: usize, p: usize) -> Mark
    requires { Scan (ranked ranks.list.now s.now) i j p }
    ensures { (j ≤ result.j) × Scan (ranked ranks.entry.list.now s.now) i result.j result.p }
{
    if p < j - i {
        let more = agree_blocks(s, j - p, s, j, s.len() - j);
        return Mark { j: j + more, p };
    }
    if p < 8 {
        return Mark { j, p };
    }
    let k = grow(s, ranks, i, j);
    Mark { j: k, p: k - i }
}
