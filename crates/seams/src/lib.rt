// Where the three parts of an edited pattern meet: the kept factors, the middle and the resumed factors, how many groups the middle has, and
// the longest Lyndon substrings, all of one pass. The groups themselves and the rows are left to other crates.
#![tactic(auto)]

ghost use Rattle.std.specs.Prelude.{cond, ◌≡◌, ◌+◌, ◌≤◌, ◌<◌, ltb, length};
ghost use Rattle.ranks.specs.Ranks.{ranked};
ghost use Rattle.seams.specs.Seams.{Accepted, Planned};
ghost use Rattle.seams.specs.Survey.{Surveyed, inside_of};

use cuts::{Ends, ends_with, start_with, stored_ends};
use longest::{Longest, better, first_run};
use scan::groups;
use splicing::Edit;
use symbols::Ranking;

// One more where a place lies between two others.
fn counted(count: usize, low: usize, high: usize, end: usize) -> usize
    requires { count < 18446744073709551615 }
    ensures { result ≡ count + inside_of low high end }
{
    if low < end && end < high {
        count + 1
    } else {
        count
    }
}

// What one pass tells of an edited pattern: the factors that end by the edit's start, the first start of a factor behind the block, how many groups
// end between the kept factors or the edit's start and that place, and the longest Lyndon substrings.
#[derive(Clone, Copy)]
struct Overview {
    ends: Ends,
    place: usize,
    stored: usize,
    fresh: usize,
    found: Longest,
    run: usize,
}

// The pass: `end` is where the stored factors before the edit end, q where the block does.
fn survey(t: &[u8], ranks: Ranking, end: usize, from: usize, q: usize) -> Overview
    requires { (q ≤ length t.now) × (length t.now ≤ 65535) }
    ensures { Surveyed (ranked ranks.entry.list.now t.now) end from q result }
{
    let mut ends = Ends { count: 0, end: 0 };
    let mut place = 0;
    let mut stored = 0;
    let mut fresh = 0;
    let mut found = Longest {
        start: 0,
        length: 0,
        count: 0,
    };
    let mut run = 0;
    for g in groups(t, ranks, 0) {
        let next = g.start + g.power * g.length;
        ends = ends_with(ends, from, g.start, g.length, g.power);
        place = start_with(place, q, g.start, g.length, g.power);
        stored = counted(stored, end, q, next);
        fresh = counted(fresh, from, q, next);
        run = first_run(run, found.length, g.length, g.power);
        found = better(found, g.start, g.length, g.power);
    }
    Overview {
        ends,
        place,
        stored,
        fresh,
        found,
        run,
    }
}

// Kept and the place where the kept factors end; resume and its place in the edited pattern.
#[derive(Clone, Copy)]
pub struct Seams {
    pub kept: usize,
    pub end: usize,
    pub resume: usize,
    pub place: usize,
}

// The seams, how many groups the middle has, and the longest Lyndon substrings with the run of the first of them.
#[derive(Clone, Copy)]
pub struct Parts {
    pub seams: Seams,
    pub groups: usize,
    pub found: Longest,
    pub run: usize,
}

// How many groups stand between two boundaries, where so many end inside.
fn groups_between(end: usize, place: usize, inner: usize) -> usize
    requires { inner < 18446744073709551615 }
    ensures { result ≡ cond (ltb end place) (inner + 1) 0 }
{
    if end < place { inner + 1 } else { 0 }
}

// Where the parts of the edited pattern t meet; for `edit`.
pub fn plan(edit: Edit, ranks: Ranking, table: &[u16], t: &[u8]) -> Parts
    requires { Accepted (ranked ranks.list.now edit.pattern.now) table.now edit.from edit.to (ranked ranks.list.now edit.block.now) (ranked ranks.list.now t.now) }
    ensures { Planned (ranked ranks.entry.list.now edit.entry.pattern.now) edit.entry.from edit.entry.to (ranked ranks.entry.list.now edit.entry.block.now) (ranked ranks.entry.list.now t.now) result }
{
    let stored = stored_ends(edit.pattern, ranks.list, table, edit.from);
    let q = edit.from + edit.block.len();
    let seen = survey(t, ranks, stored.end, edit.from, q);
    let ends = seen.ends;
    let place = seen.place;
    let resume = edit.to + (place - q);
    let (kept, end, inner) = if stored.count <= ends.count {
        (stored.count, stored.end, seen.stored)
    } else {
        (ends.count, ends.end, seen.fresh)
    };
    Parts {
        seams: Seams {
            kept,
            end,
            resume,
            place,
        },
        groups: groups_between(end, place, inner),
        found: seen.found,
        run: seen.run,
    }
}
