// The groups of a suffix, counted and written to a row of numbers, by the chain through the Lyndon array.
// That the table is right and the row long enough is the caller's concern.
#![tactic(auto)]

ghost use Rattle.std.specs.Iterator.{YieldsFirstBy, item_count};
ghost use Rattle.std.specs.Prelude.{◌≡◌, ◌*◌, ◌<◌, ◌≤◌, length, take};
ghost use Rattle.ranks.specs.Ranks.{ranked};
ghost use Rattle.rows.specs.Row.{written};
ghost use Rattle.scan.specs.Group.{NextGroup, group_of};
ghost use Rattle.words.specs.Factors.{group_numbers};
ghost use Rattle.words.specs.Tables.{lyndon_array, suffix_groups};

use comparing::agree;
use factoring::write_group;
use scan::{GroupAt, Stretch};
use symbols::Ranking;

// The group of factors that starts at i.
fn group_at(s: &[u8], ranks: Ranking, table: &[u16], i: usize) -> Stretch
    requires { (i < length s.now) × (take (length s.now) table.now ≡ lyndon_array (ranked ranks.list.now s.now)) }
    ensures { NextGroup (ranked ranks.entry.list.now s.now) i result.length result.power }
{
    let n = s.len();
    let length = table[i] as usize;
    let end = i + length;
    let mut power = 1;
    let mut j = end;
    // no range: it goes word by word as long as they are equal
    while j < n {
        if table[j] as usize != length {
            return Stretch { length, power };
        }
        let next = j + length;
        if !agree(&s[i..end], &s[j..next]) {
            return Stretch { length, power };
        }
        power += 1;
        j = next;
    }
    Stretch { length, power }
}

// Goes over groups from first to last along the chain: the pattern, its ranks, its Lyndon array, and where the next group starts.
#[derive(Drop)]
struct GroupsAlong<'a> {
    s: &'a [u8],
    ranks: Ranking<'a>,
    table: &'a [u16],
    at: usize,
    ghost array: { take (length s.now) table.now ≡ lyndon_array (ranked ranks.list.now s.now) },
    ghost within: { at ≤ length s.now },
}

// The groups from a place on.
fn groups_along<'a>(
    s: &'a [u8],
    ranks: Ranking<'a>,
    table: &'a [u16],
    start: usize,
) -> GroupsAlong<'a>
    requires { take (length s.now) table.now ≡ lyndon_array (ranked ranks.list.now s.now) }
    ensures { (result.s.now ≡ s.now) × (result.ranks.list.now ≡ ranks.entry.list.now) × (suffix_groups (ranked ranks.entry.list.now s.now) result.at ≡ suffix_groups (ranked ranks.entry.list.now s.now) start) }
{
    let at = start.min(s.len());
    GroupsAlong {
        s,
        ranks,
        table,
        at,
    }
}

impl<'a> Iterator for GroupsAlong<'a> {
    type Item = GroupAt;

    ghost next_gives = { YieldsFirstBy (λ g. group_of g.start g.length g.power) (λ it. suffix_groups (ranked it.ranks.list.now it.s.now) it.at) };

    ghost remaining = { item_count (λ it. suffix_groups (ranked it.ranks.list.now it.s.now) it.at) };

    #[inline(always)]
    fn next(&mut self) -> Option<GroupAt> {
        let start = self.at;
        if start == self.s.len() {
            return None;
        }
        let Stretch { length, power } = group_at(self.s, self.ranks, self.table, start);
        self.at = start + power * length;
        Some(GroupAt {
            start,
            length,
            power,
        })
    }
}

// The number of groups from a place on.
pub fn count_suffix(s: &[u8], ranks: Ranking, table: &[u16], start: usize) -> usize
    requires { take (length s.now) table.now ≡ lyndon_array (ranked ranks.list.now s.now) }
    ensures { result ≡ length (suffix_groups (ranked ranks.entry.list.now s.now) start) }
{
    groups_along(s, ranks, table, start).count()
}

// Writes the groups from a place on, three numbers each.
pub fn write_suffix(s: &[u8], ranks: Ranking, table: &[u16], start: usize, row: &mut [u16])
    requires { (length s.now ≤ 65535) × (take (length s.now) table.now ≡ lyndon_array (ranked ranks.list.now s.now))
        × (3 * length (suffix_groups (ranked ranks.list.now s.now) start) ≤ length row.old) }
    ensures { row.new ≡ written (group_numbers (suffix_groups (ranked ranks.entry.list.now s.now) start)) row.old }
{
    let mut at = 0;
    for g in groups_along(s, ranks, table, start) {
        write_group(row, at, g.start, g.length, g.power);
        at += 3;
    }
}
