// The answer to an accepted edit with a lent buffer, to which the edited pattern is spliced.
#![tactic(auto)]

ghost use Rattle.std.specs.Prelude.{◌*◌, ◌≤◌, min, length};
ghost use Rattle.edit.specs.Core.{answer_told, room_refusals};
ghost use Rattle.edit.specs.Inner.{max_middle, FillsNumbers};
ghost use Rattle.ranks.specs.Ranks.{ranked};
ghost use Rattle.seams.specs.Seams.{Accepted};
ghost use Rattle.words.specs.Edit.{edited};

use edit::{Counts, fill};
use refusals::Refusal;
use splicing::{Edit, splice};
use symbols::Ranking;

// The answer to an accepted edit, with a buffer for the edited pattern.
#[tactic(auto, using(crate::proofs::Bytes::stretch_inside, crate::proofs::Bytes::edited_long))]
pub fn answer_in(
    edit: Edit,
    ranks: Ranking,
    array: &[u16],
    room: usize,
    t: &mut [u8],
    numbers: &mut [u16],
    starts: &mut [u16],
) -> Result<Counts, Refusal>
    requires { Accepted (ranked ranks.list.now edit.pattern.now) array.now edit.from edit.to (ranked ranks.list.now edit.block.now) (edited (ranked ranks.list.now edit.pattern.now) edit.from edit.to (ranked ranks.list.now edit.block.now)) × (length (edited edit.pattern.now edit.from edit.to edit.block.now) ≤ length t.old) × (3 * min room max_middle ≤ length numbers.old) }
    ensures { FillsNumbers (room_refusals (ranked ranks.entry.list.now edit.entry.pattern.now) edit.entry.from edit.entry.to (ranked ranks.entry.list.now edit.entry.block.now) room (length starts.old)) (ranked ranks.entry.list.now edit.entry.pattern.now) edit.entry.from edit.entry.to (ranked ranks.entry.list.now edit.entry.block.now) numbers.old numbers.new starts.old starts.new (answer_told result) }
{
    splice(edit, t);
    let m = edit.edited_length();
    fill(edit, ranks, array, &t[..m], room, numbers, starts)
}
