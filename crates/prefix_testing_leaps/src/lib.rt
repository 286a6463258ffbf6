// A table of any content tested by steps of sixteen entries, where sixteen bytes are above the word's first or stand a word earlier too.
#![tactic(auto)]

ghost use Rattle.std.specs.Prelude.{◌-◌, ◌≤◌, length};
ghost use Rattle.ranks.specs.Ranks.{ranked};
ghost use Rattle.words.specs.Demand.{FactorStart};
ghost use Rattle.prefix_table.specs.State.{Testing};

use above::{above_block, above_end};
use agreeing::agree_block;
use entries::{are_lengths, same_entries};
use leaps::Mark;
use symbols::Ranking;

// Tests entries from `from` on by blocks of bytes that are above the word's first, and answers how far they are right.
fn test_above(s: &[u8], ranks: Ranking, table: &[u16], i: usize, from: usize) -> usize
    requires { FactorStart (ranked ranks.list.now s.now) i × (length s.now ≤ length table.now)
        × Testing (ranked ranks.list.now s.now) table.now i from (from - i) }
    ensures { (from ≤ result) × Testing (ranked ranks.entry.list.now s.now) table.now i result (result - i) }
{
    let c = s[i];
    let end = above_end(s, ranks, from, c);
    let mut j = from;
    // no range by sixteens: where it stops after whole blocks is the answer
    while 16 <= end - j {
        if !above_block(s, ranks, j, c) {
            return j;
        }
        if !are_lengths(table, i, j) {
            return j;
        }
        j += 16;
    }
    j
}

// Tests entries from `from` on by blocks of bytes that stand a word earlier too, and answers how far they are right.
fn test_again(s: &[u8], ranks: Ranking, table: &[u16], i: usize, from: usize, p: usize) -> usize
    requires { FactorStart (ranked ranks.list.now s.now) i × (length s.now ≤ length table.now)
        × Testing (ranked ranks.list.now s.now) table.now i from p }
    ensures { (from ≤ result) × Testing (ranked ranks.entry.list.now s.now) table.now i result p }
{
    let mut j = from;
    // no range by sixteens: where it stops after whole blocks is the answer
    while 16 <= s.len() - j {
        if !agree_block(s, j - p, s, j) {
            return j;
        }
        if !same_entries(table, j - p, j) {
            return j;
        }
        j += 16;
    }
    j
}

// Tests entries by blocks, as long as that goes.
pub fn test_blocks(s: &[u8], ranks: Ranking, table: &[u16], i: usize, j: usize, p: usize) -> Mark
    requires { FactorStart (ranked ranks.list.now s.now) i × (length s.now ≤ length table.now)
        × Testing (ranked ranks.list.now s.now) table.now i j p }
    ensures { (j ≤ result.j) × Testing (ranked ranks.entry.list.now s.now) table.now i result.j result.p }
{
    if p == j - i {
        let end = test_above(s, ranks, table, i, j);
        return Mark { j: end, p: end - i };
    }
    let end = test_again(s, ranks, table, i, j, p);
    Mark { j: end, p }
}
