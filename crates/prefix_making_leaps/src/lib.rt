// The prefix table of a pattern made by steps of sixteen entries, where sixteen bytes are above the word's first or stand some words earlier too.
#![tactic(auto)]

ghost use Rattle.std.specs.Prelude.{◌-◌, ◌≤◌, ◌<◌, length};
ghost use Rattle.ranks.specs.Ranks.{ranked};
ghost use Rattle.words.specs.Demand.{FactorStart};
ghost use Rattle.prefix_table.specs.State.{Back};
ghost use Rattle.prefix_making_leaps.specs.Making.{Making};

use above::{above_block, above_end};
use agreeing::agree_block;
use entries::{copy_entries, write_lengths};
use leaps::Mark;
use symbols::Ranking;

// How far back sixteen entries are copied from: one word, or as many short ones as do not overlap with the copy.
fn copied_from(p: usize) -> usize
    requires { (0 < p) × (p ≤ 65535) }
    ensures { (16 ≤ result) × Back 0 result p result }
{
    if p < 16 { 16 * p } else { p }
}

// Makes entries from `from` on by blocks of bytes that are above the word's first.
fn make_above(s: &[u8], ranks: Ranking, table: &mut [u16], i: usize, from: usize) -> usize
    requires { FactorStart (ranked ranks.list.now s.now) i × (length s.now ≤ 65535)
        × Making (ranked ranks.list.now s.now) table.old table.old i from (from - i) }
    ensures { (from ≤ result) × Making (ranked ranks.entry.list.now s.now) table.old table.new i result (result - i) }
{
    let c = s[i];
    let end = above_end(s, ranks, from, c);
    let mut j = from;
    // no range by sixteens: where it stops after whole blocks is the answer
    while 16 <= end - j {
        if !above_block(s, ranks, j, c) {
            return j;
        }
        write_lengths(table, i, j);
        j += 16;
    }
    j
}

// Makes entries from `from` on by blocks of bytes that stand some words earlier too.
fn make_again(
    s: &[u8],
    ranks: Ranking,
    table: &mut [u16],
    i: usize,
    from: usize,
    p: usize,
    back: usize,
) -> usize
    requires { FactorStart (ranked ranks.list.now s.now) i × (16 ≤ back) × Back i from p back
        × Making (ranked ranks.list.now s.now) table.old table.old i from p }
    ensures { (from ≤ result) × Making (ranked ranks.entry.list.now s.now) table.old table.new i result p }
{
    let mut j = from;
    // no range by sixteens: where it stops after whole blocks is the answer
    while 16 <= s.len() - j {
        if !agree_block(s, j - back, s, j) {
            return j;
        }
        copy_entries(table, j, back);
        j += 16;
    }
    j
}

// Makes entries by blocks, as long as that goes.
pub fn make_blocks(
    s: &[u8],
    ranks: Ranking,
    table: &mut [u16],
    i: usize,
    j: usize,
    p: usize,
) -> Mark
    requires { FactorStart (ranked ranks.list.now s.now) i × (length s.now ≤ 65535)
        × Making (ranked ranks.list.now s.now) table.old table.old i j p }
    ensures { (j ≤ result.j) × Making (ranked ranks.entry.list.now s.now) table.old table.new i result.j result.p }
{
    if p == j - i {
        let end = make_above(s, ranks, table, i, j);
        return Mark { j: end, p: end - i };
    }
    let back = copied_from(p);
    if j - i < back {
        return Mark { j, p };
    }
    let end = make_again(s, ranks, table, i, j, p, back);
    Mark { j: end, p }
}
