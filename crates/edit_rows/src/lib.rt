// Both rows of the answer to an edit, written from the edited pattern: the groups of the middle, as numbers, and the starts of the longest words.
// What is written was planned by `seams`; that it fits is the caller's concern.
#![tactic(auto)]

ghost use Rattle.std.specs.Prelude.{◌≡◌, ◌+◌, ◌*◌, ◌≤◌, length, take};
ghost use Rattle.ranks.specs.Ranks.{ranked};
ghost use Rattle.rows.specs.Row.{written};
ghost use Rattle.words.specs.Factors.{group_numbers};
ghost use Rattle.words.specs.Tables.{suffix_groups, longest_starts};
ghost use Rattle.longest.specs.Best.{starts_of, Measures};
ghost use Rattle.edit_rows.specs.Rows.{Between, WritesMiddle};

use factoring::{fill_groups, write_group};
use longest::Longest;
use longest_writing::{write_run, write_starts};
use scan::groups;
use symbols::Ranking;

// Writes the middle groups of t, which ends where the middle does, and the starts of those of its factors that have the length `size`, from place
// `at` of their row on; answers the place after them.
fn write_middle(
    t: &[u8],
    ranks: Ranking,
    end: usize,
    size: usize,
    numbers: &mut [u16],
    starts: &mut [u16],
    at: usize,
) -> usize
    requires { (length t.now ≤ 65535) × (end ≤ length t.now) × (3 * length (suffix_groups (ranked ranks.list.now t.now) end) ≤ length numbers.old) × (at + length (starts_of size (suffix_groups (ranked ranks.list.now t.now) end)) ≤ length starts.old) }
    ensures { WritesMiddle (ranked ranks.entry.list.now t.now) end size numbers.old numbers.new starts.old starts.new at result }
{
    let mut k = 0;
    let mut next = at;
    for g in groups(t, ranks, end) {
        write_group(numbers, k, g.start, g.length, g.power);
        k += 3;
        if g.length == size {
            next = write_run(starts, next, g.start, g.length, g.power);
        }
    }
    next
}

// Writes both rows in one pass, over the middle alone where the longest words are one run.
pub fn write_rows(
    t: &[u8],
    ranks: Ranking,
    end: usize,
    place: usize,
    found: Longest,
    run: usize,
    numbers: &mut [u16],
    starts: &mut [u16],
)
    requires { Between (ranked ranks.list.now t.now) end place × Measures (ranked ranks.list.now t.now) found run × (length t.now ≤ 65535) × (3 * length (suffix_groups (take place (ranked ranks.list.now t.now)) end) ≤ length numbers.old) × (found.count ≤ length starts.old) }
    ensures { (numbers.new ≡ written (group_numbers (suffix_groups (take place (ranked ranks.entry.list.now t.now)) end)) numbers.old) × (starts.new ≡ written (longest_starts (ranked ranks.entry.list.now t.now)) starts.old) }
{
    let size = found.length;
    if run == found.count {
        fill_groups(&t[..place], ranks, end, numbers);
        write_run(starts, 0, found.start, size, run);
        return;
    }
    let a = write_starts(&t[..end], ranks, 0, size, starts, 0);
    let b = write_middle(&t[..place], ranks, end, size, numbers, starts, a);
    write_starts(t, ranks, place, size, starts, b);
}
