// The answer to an accepted edit, with the shortest of three arrays that holds the edited pattern: a short pattern does not pay for the
// clearing of a long array.
#![tactic(auto)]

ghost use Rattle.std.specs.Prelude.{◌*◌, ◌≤◌, min, length};
ghost use Rattle.edit.specs.Core.{answer_told, room_refusals};
ghost use Rattle.edit.specs.Inner.{max_middle, FillsNumbers};
ghost use Rattle.ranks.specs.Ranks.{ranked};
ghost use Rattle.refusals.specs.Refusals.{max_pattern};
ghost use Rattle.seams.specs.Seams.{Accepted};
ghost use Rattle.words.specs.Edit.{edited};

use edit::Counts;
use edit_spliced::answer_in;
use refusals::{MAX_PATTERN, Refusal};
use splicing::Edit;
use symbols::Ranking;

// Two lengths of a buffer shorter than the longest pattern.
const SHORT: usize = 256;

const MEDIUM: usize = 4096;

// The answer to an accepted edit, with a buffer of its own.
fn answer_with<const SIZE: usize>(
    edit: Edit,
    ranks: Ranking,
    array: &[u16],
    room: usize,
    numbers: &mut [u16],
    starts: &mut [u16],
) -> Result<Counts, Refusal>
    requires { Accepted (ranked ranks.list.now edit.pattern.now) array.now edit.from edit.to (ranked ranks.list.now edit.block.now) (edited (ranked ranks.list.now edit.pattern.now) edit.from edit.to (ranked ranks.list.now edit.block.now)) × (length (edited edit.pattern.now edit.from edit.to edit.block.now) ≤ SIZE) × (SIZE ≤ max_pattern) × (3 * min room max_middle ≤ length numbers.old) }
    ensures { FillsNumbers (room_refusals (ranked ranks.entry.list.now edit.entry.pattern.now) edit.entry.from edit.entry.to (ranked ranks.entry.list.now edit.entry.block.now) room (length starts.old)) (ranked ranks.entry.list.now edit.entry.pattern.now) edit.entry.from edit.entry.to (ranked ranks.entry.list.now edit.entry.block.now) numbers.old numbers.new starts.old starts.new (answer_told result) }
{
    let mut t = [0u8; SIZE];
    answer_in(edit, ranks, array, room, &mut t, numbers, starts)
}

// The answer to an accepted edit, with the shortest of the three buffers: the cost goes with the pattern.
#[tactic(auto, using(edit_spliced::proofs::Bytes::stretch_inside, edit_spliced::proofs::Bytes::edited_long))]
pub fn answer(
    edit: Edit,
    ranks: Ranking,
    array: &[u16],
    room: usize,
    numbers: &mut [u16],
    starts: &mut [u16],
) -> Result<Counts, Refusal>
    requires { Accepted (ranked ranks.list.now edit.pattern.now) array.now edit.from edit.to (ranked ranks.list.now edit.block.now) (edited (ranked ranks.list.now edit.pattern.now) edit.from edit.to (ranked ranks.list.now edit.block.now)) × (length (edited edit.pattern.now edit.from edit.to edit.block.now) ≤ max_pattern) × (3 * min room max_middle ≤ length numbers.old) }
    ensures { FillsNumbers (room_refusals (ranked ranks.entry.list.now edit.entry.pattern.now) edit.entry.from edit.entry.to (ranked ranks.entry.list.now edit.entry.block.now) room (length starts.old)) (ranked ranks.entry.list.now edit.entry.pattern.now) edit.entry.from edit.entry.to (ranked ranks.entry.list.now edit.entry.block.now) numbers.old numbers.new starts.old starts.new (answer_told result) }
{
    let m = edit.edited_length();
    if m <= SHORT {
        return answer_with::<SHORT>(edit, ranks, array, room, numbers, starts);
    }
    if m <= MEDIUM {
        return answer_with::<MEDIUM>(edit, ranks, array, room, numbers, starts);
    }
    answer_with::<MAX_PATTERN>(edit, ranks, array, room, numbers, starts)
}
