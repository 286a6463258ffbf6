// The groups of a prefix, counted and written to a row of numbers from the last to the first, by the chain through the table of last factors.
// That the table is right and the row long enough is the caller's concern.
#![tactic(auto)]

ghost use Rattle.std.specs.Iterator.{YieldsFirstBy, item_count};
ghost use Rattle.std.specs.Prelude.{◌≡◌, ◌*◌, ◌<◌, ◌≤◌, length, reverse, take};
ghost use Rattle.ranks.specs.Ranks.{ranked};
ghost use Rattle.rows.specs.Row.{written};
ghost use Rattle.scan.specs.Group.{group_of};
ghost use Rattle.words.specs.Factors.{group_numbers};
ghost use Rattle.words.specs.Tables.{last_factors, prefix_groups};
ghost use Rattle.prefix_chain.specs.Last.{LastGroup};

use comparing::agree;
use factoring::write_group;
use scan::{GroupAt, Stretch};
use symbols::Ranking;

// The group of factors that ends at q, of the first q symbols.
fn group_before(s: &[u8], ranks: Ranking, table: &[u16], q: usize) -> Stretch
    requires { (0 < q) × (q ≤ length s.now) × (take (length s.now) table.now ≡ last_factors (ranked ranks.list.now s.now)) }
    ensures { LastGroup (ranked ranks.entry.list.now s.now) q result.length result.power }
{
    let length = table[q - 1] as usize;
    let from = q - length;
    let mut power = 1;
    let mut j = from;
    // no range: it goes word by word as long as they are equal
    while 0 < j {
        if table[j - 1] as usize != length {
            return Stretch { length, power };
        }
        let back = j - length;
        if !agree(&s[back..j], &s[from..q]) {
            return Stretch { length, power };
        }
        power += 1;
        j = back;
    }
    Stretch { length, power }
}

// Goes over groups from last to first along the chain: the pattern, its ranks, its table of last factors, and where the groups left end.
#[derive(Drop)]
struct GroupsBack<'a> {
    s: &'a [u8],
    ranks: Ranking<'a>,
    table: &'a [u16],
    end: usize,
    ghost last: { take (length s.now) table.now ≡ last_factors (ranked ranks.list.now s.now) },
    ghost within: { end ≤ length s.now },
}

impl<'a> Iterator for GroupsBack<'a> {
    type Item = GroupAt;

    ghost next_gives = { YieldsFirstBy (λ g. group_of g.start g.length g.power) (λ it. reverse (prefix_groups (ranked it.ranks.list.now it.s.now) it.end)) };

    ghost remaining = { item_count (λ it. reverse (prefix_groups (ranked it.ranks.list.now it.s.now) it.end)) };

    #[inline(always)]
    fn next(&mut self) -> Option<GroupAt> {
        if self.end == 0 {
            return None;
        }
        let Stretch { length, power } = group_before(self.s, self.ranks, self.table, self.end);
        let start = self.end - power * length;
        self.end = start;
        Some(GroupAt {
            start,
            length,
            power,
        })
    }
}

// The number of groups of the first `end` symbols.
pub fn count_prefix(s: &[u8], ranks: Ranking, table: &[u16], end: usize) -> usize
    requires { (end ≤ length s.now) × (take (length s.now) table.now ≡ last_factors (ranked ranks.list.now s.now)) }
    ensures { result ≡ length (prefix_groups (ranked ranks.entry.list.now s.now) end) }
{
    let groups = GroupsBack {
        s,
        ranks,
        table,
        end,
    };
    groups.count()
}

// Writes the groups of the first `end` symbols, of which there are `count`, three numbers each, from the last to the first.
pub fn write_prefix(
    s: &[u8],
    ranks: Ranking,
    table: &[u16],
    end: usize,
    count: usize,
    row: &mut [u16],
)
    requires { (length s.now ≤ 65535) × (end ≤ length s.now) × (take (length s.now) table.now ≡ last_factors (ranked ranks.list.now s.now))
        × (count ≡ length (prefix_groups (ranked ranks.list.now s.now) end)) × (3 * count ≤ length row.old) }
    ensures { row.new ≡ written (group_numbers (prefix_groups (ranked ranks.entry.list.now s.now) end)) row.old }
{
    let mut at = 3 * count;
    let groups = GroupsBack {
        s,
        ranks,
        table,
        end,
    };
    for g in groups {
        at -= 3;
        write_group(row, at, g.start, g.length, g.power);
    }
}
