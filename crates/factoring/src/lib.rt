// The groups of a pattern from a place on, counted and written to a row of numbers, and its last factor.
// Each is one pass by Duval's scan; that the row is long enough is the caller's concern.
#![tactic(auto)]

ghost use Rattle.std.specs.Prelude.{◌≡◌, ◌+◌, ◌*◌, ◌≤◌, length, set};
ghost use Rattle.ranks.specs.Ranks.{ranked};
ghost use Rattle.rows.specs.Row.{written};
ghost use Rattle.words.specs.Factors.{factors, group_numbers};
ghost use Rattle.words.specs.Tables.{last_length, suffix_groups};

use scan::groups;
use symbols::Ranking;

// The number of groups from a place on.
pub fn count_groups(s: &[u8], ranks: Ranking, from: usize) -> usize
    requires { from ≤ length s.now }
    ensures { result ≡ length (suffix_groups (ranked ranks.entry.list.now s.now) from) }
{
    groups(s, ranks, from).count()
}

// Writes a group to three entries of a row.
pub fn write_group(row: &mut [u16], at: usize, start: usize, size: usize, power: usize)
    requires { (at + 3 ≤ length row.old) × (start ≤ 65535) × (size ≤ 65535) × (power ≤ 65535) }
    ensures { row.new ≡ set (set (set row.old at start) (at + 1) size) (at + 2) power }
{
    row[at] = start as u16;
    row[at + 1] = size as u16;
    row[at + 2] = power as u16;
}

// Writes the groups from a place on, three numbers each, and answers how many there are.
pub fn fill_groups(s: &[u8], ranks: Ranking, from: usize, row: &mut [u16]) -> usize
    requires { (length s.now ≤ 65535) × (from ≤ length s.now) × (3 * length (suffix_groups (ranked ranks.list.now s.now) from) ≤ length row.old) }
    ensures { (result ≡ length (suffix_groups (ranked ranks.entry.list.now s.now) from)) × (row.new ≡ written (group_numbers (suffix_groups (ranked ranks.entry.list.now s.now) from)) row.old) }
{
    let mut at = 0;
    for g in groups(s, ranks, from) {
        write_group(row, at, g.start, g.length, g.power);
        at += 3;
    }
    at / 3
}

// The length of the last factor of a pattern, 0 for the empty one.
pub fn last_factor(s: &[u8], ranks: Ranking) -> usize
    ensures { result ≡ last_length (factors (ranked ranks.entry.list.now s.now)) }
{
    let mut last = 0;
    for g in groups(s, ranks, 0) {
        last = g.length;
    }
    last
}
