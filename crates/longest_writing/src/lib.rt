// The starts of the longest Lyndon substrings of a pattern, which are its longest factors, written to a row.
// That the row is long enough is the caller's concern.
#![tactic(auto)]

ghost use Rattle.std.specs.Prelude.{◌≡◌, ◌+◌, ◌*◌, ◌≤◌, length};
ghost use Rattle.ranks.specs.Ranks.{ranked};
ghost use Rattle.rows.specs.Row.{written, written_at};
ghost use Rattle.words.specs.Tables.{suffix_groups, longest_starts};
ghost use Rattle.longest.specs.Best.{run_from, starts_of, Measures};

use longest::Longest;
use scan::groups;
use symbols::Ranking;

// Writes the starts of a group's factors from place `at` of the row on, and answers the place after them.
pub fn write_run(row: &mut [u16], at: usize, start: usize, size: usize, power: usize) -> usize
    requires { (at + power ≤ length row.old) × (start + power * size ≤ 65535) }
    ensures { (result ≡ at + power) × (row.new ≡ written_at at (run_from start size power) row.old) }
{
    // a second counter: of `start + k * size` the compiler makes vectors of the places, which are read-only memory, and that is short
    let mut i = start;
    for k in 0..power {
        row[at + k] = i as u16;
        i += size;
    }
    at + power
}

// Writes the starts of the factors of one length that stand from a place on, from place `at` of the row on, and answers the place after them.
pub fn write_starts(
    s: &[u8],
    ranks: Ranking,
    from: usize,
    size: usize,
    row: &mut [u16],
    at: usize,
) -> usize
    requires { (length s.now ≤ 65535) × (from ≤ length s.now) × (at + length (starts_of size (suffix_groups (ranked ranks.list.now s.now) from)) ≤ length row.old) }
    ensures { (result ≡ at + length (starts_of size (suffix_groups (ranked ranks.entry.list.now s.now) from))) × (row.new ≡ written_at at (starts_of size (suffix_groups (ranked ranks.entry.list.now s.now) from)) row.old) }
{
    let mut next = at;
    for g in groups(s, ranks, from) {
        if g.length == size {
            next = write_run(row, next, g.start, g.length, g.power);
        }
    }
    next
}

// Writes the starts of the longest Lyndon substrings, which were measured: where they are one run, the pattern is not scanned again.
pub fn write_longest(s: &[u8], ranks: Ranking, found: Longest, run: usize, row: &mut [u16])
    requires { (length s.now ≤ 65535) × Measures (ranked ranks.list.now s.now) found run × (found.count ≤ length row.old) }
    ensures { row.new ≡ written (longest_starts (ranked ranks.entry.list.now s.now)) row.old }
{
    if run == found.count {
        write_run(row, 0, found.start, found.length, run);
    } else {
        write_starts(s, ranks, 0, found.length, row, 0);
    }
}
