// Duval's scan: the group of factors that starts at a place of a pattern, and the groups from a place on, one after the other.
// The inner loop of everything that lists factors; refusals and rows are left to the crates above.
#![tactic(auto)]

ghost use Rattle.std.specs.Iterator.{YieldsFirstBy, item_count};
ghost use Rattle.std.specs.Prelude.{◌≡◌, ◌<◌, ◌≤◌, length};
ghost use Rattle.ranks.specs.Ranks.{ranked};
ghost use Rattle.words.specs.Tables.{suffix_groups};
ghost use Rattle.scan.specs.Group.{NextGroup, GroupFrom, group_of};

use leaps::{leap, next_gap};
use symbols::Ranking;

// A stretch of equal neighbouring factors: the length of one, and how many there are.
#[derive(Clone, Copy)]
pub struct Stretch {
    pub length: usize,
    pub power: usize,
}

// The group of factors that starts at i, where i is the start of a group.
pub fn next_group(s: &[u8], ranks: Ranking, i: usize) -> Stretch
    requires { i < length s.now }
    ensures { NextGroup (ranked ranks.entry.list.now s.now) i result.length result.power }
{
    let n = s.len();
    let mut p = 1;
    let mut j = i + 1;
    let mut gap = 8;
    // A loop by hand: how far a leap goes is only known from the bytes.
    while j < n {
        let stop = j + gap.min(n - j);
        for k in j..stop {
            let x = s[k - p];
            let y = s[k];
            if x != y {
                if ranks.below(y, x) {
                    let power = (k - i) / p;
                    return Stretch { length: p, power };
                }
                p = k + 1 - i;
            }
        }
        let m = leap(s, ranks, i, stop, p);
        gap = next_gap(gap, 64, stop < m.j);
        p = m.p;
        j = m.j;
    }
    let power = (j - i) / p;
    Stretch { length: p, power }
}

// The group that starts at a place; at the end of the pattern and behind it, where none does, zeros.
// Zeros and no Option: the listing prints just these in its line for the end.
pub fn group_from(s: &[u8], ranks: Ranking, i: usize) -> Stretch
    ensures { GroupFrom (ranked ranks.entry.list.now s.now) i result.length result.power }
{
    if i < s.len() {
        return next_group(s, ranks, i);
    }
    Stretch {
        length: 0,
        power: 0,
    }
}

// A group with the place that it starts at.
#[derive(Clone, Copy)]
pub struct GroupAt {
    pub start: usize,
    pub length: usize,
    pub power: usize,
}

// Goes over groups from first to last: the pattern, its ranks, and where the next group starts.
#[derive(Drop)]
pub struct GroupsLeft<'a> {
    s: &'a [u8],
    ranks: Ranking<'a>,
    at: usize,
    pub ghost within: { at ≤ length s.now },
}

// The groups of a pattern from a place on.
pub fn groups<'a>(s: &'a [u8], ranks: Ranking<'a>, from: usize) -> GroupsLeft<'a>
    requires { from ≤ length s.now }
    ensures { (result.s.now ≡ s.now) × (result.ranks.list.now ≡ ranks.entry.list.now) × (result.at ≡ from) }
{
    GroupsLeft { s, ranks, at: from }
}

impl<'a> Iterator for GroupsLeft<'a> {
    type Item = GroupAt;

    ghost next_gives = { YieldsFirstBy (λ g. group_of g.start g.length g.power) (λ it. suffix_groups (ranked it.ranks.list.now it.s.now) it.at) };

    ghost remaining = { item_count (λ it. suffix_groups (ranked it.ranks.list.now it.s.now) it.at) };

    #[inline(always)]
    fn next(&mut self) -> Option<GroupAt> {
        let start = self.at;
        if start == self.s.len() {
            return None;
        }
        let Stretch { length, power } = next_group(self.s, self.ranks, start);
        self.at = start + power * length;
        Some(GroupAt {
            start,
            length,
            power,
        })
    }
}
