// The answer to an accepted edit of a stored pattern, on rows of plain numbers: measured, held against the room in both rows, and written by
// `edit_rows`. The refusals 1 to 5 and the edited pattern are left to `edit_core`, the kind of row that takes the groups to the calls.
#![tactic(auto)]

ghost use Rattle.std.specs.Prelude.{◌*◌, ◌≤◌, min, length};
ghost use Rattle.ranks.specs.Ranks.{ranked};
ghost use Rattle.seams.specs.Seams.{Accepted};
ghost use Rattle.edit.specs.Core.{answer_told, room_refusals};
ghost use Rattle.edit.specs.Inner.{max_middle, FillsNumbers};

use edit_rows::write_rows;
use refusals::{MAX_BLOCK, Refusal};
use seams::plan;
use splicing::Edit;
use symbols::Ranking;

// The most middle groups of an accepted edit: the binary digits of MAX_PATTERN, the longest block, and one.
pub const MAX_MIDDLE: usize = 15 + MAX_BLOCK + 1;

// What an accepted edit answers beside the two rows: kept, resume, the number of middle groups, the longest length, the number of starts.
#[derive(Clone, Copy)]
pub struct Counts {
    pub kept: usize,
    pub resume: usize,
    pub groups: usize,
    pub length: usize,
    pub starts: usize,
}

// Measures the result, tests refusal 8 for both rows, and writes them; for `edit_core`.
pub fn fill(
    edit: Edit,
    ranks: Ranking,
    table: &[u16],
    t: &[u8],
    room: usize,
    numbers: &mut [u16],
    starts: &mut [u16],
) -> Result<Counts, Refusal>
    requires { Accepted (ranked ranks.list.now edit.pattern.now) table.now edit.from edit.to (ranked ranks.list.now edit.block.now) (ranked ranks.list.now t.now) × (3 * min room max_middle ≤ length numbers.old) }
    ensures { FillsNumbers (room_refusals (ranked ranks.entry.list.now edit.entry.pattern.now) edit.entry.from edit.entry.to (ranked ranks.entry.list.now edit.entry.block.now) room (length starts.old)) (ranked ranks.entry.list.now edit.entry.pattern.now) edit.entry.from edit.entry.to (ranked ranks.entry.list.now edit.entry.block.now) numbers.old numbers.new starts.old starts.new (answer_told result) }
{
    let p = plan(edit, ranks, table, t);
    let found = p.found;
    if room < p.groups {
        return Err(Refusal::RowTooShort);
    }
    if starts.len() < found.count {
        return Err(Refusal::RowTooShort);
    }
    write_rows(
        t,
        ranks,
        p.seams.end,
        p.seams.place,
        found,
        p.run,
        numbers,
        starts,
    );
    Ok(Counts {
        kept: p.seams.kept,
        resume: p.seams.resume,
        groups: p.groups,
        length: found.length,
        starts: found.count,
    })
}
