// The answer to one edit of a stored pattern, on rows of plain numbers: the core of the public call and of the program `edited`. It tests every
// refusal before it writes anything.
#![tactic(auto)]

ghost use Rattle.std.specs.Prelude.{◌∷◌, ◌*◌, ◌≤◌, min, length};
ghost use Rattle.edit.specs.Core.{answer_told, all_refusals};
ghost use Rattle.edit.specs.Inner.{max_middle, FillsNumbers};
ghost use Rattle.ranks.specs.Ranks.{ranked};
ghost use Rattle.refusals.specs.Refusals.{not_order};

use edit::Counts;
use edit_arrays::answer;
use edit_refusal::refusal;
use order_test::test_order;
use refusals::Refusal;
use splicing::Edit;
use symbols::Ranking;

// The answer to an edit whose order is one, with room for `room` groups. The groups go to `numbers`, three each.
fn ranked_core(
    edit: Edit,
    ranks: Ranking,
    array: &[u16],
    last: &[u16],
    room: usize,
    numbers: &mut [u16],
    starts: &mut [u16],
) -> Result<Counts, Refusal>
    requires { 3 * min room max_middle ≤ length numbers.old }
    ensures { FillsNumbers (all_refusals (ranked ranks.entry.list.now edit.entry.pattern.now) array.now last.now edit.entry.from edit.entry.to (ranked ranks.entry.list.now edit.entry.block.now) room (length starts.old)) (ranked ranks.entry.list.now edit.entry.pattern.now) edit.entry.from edit.entry.to (ranked ranks.entry.list.now edit.entry.block.now) numbers.old numbers.new starts.old starts.new (answer_told result) }
{
    refusal(edit, ranks, array, last)?;
    answer(edit, ranks, array, room, numbers, starts)
}

// The answer to an edit, with room for `room` groups. The groups go to `numbers`, three each.
pub fn core(
    edit: Edit,
    order: &[u8],
    array: &[u16],
    last: &[u16],
    room: usize,
    numbers: &mut [u16],
    starts: &mut [u16],
) -> Result<Counts, Refusal>
    requires { 3 * min room max_middle ≤ length numbers.old }
    ensures { FillsNumbers (not_order order.now ∷ all_refusals (ranked order.now edit.entry.pattern.now) array.now last.now edit.entry.from edit.entry.to (ranked order.now edit.entry.block.now) room (length starts.old)) (ranked order.now edit.entry.pattern.now) edit.entry.from edit.entry.to (ranked order.now edit.entry.block.now) numbers.old numbers.new starts.old starts.new (answer_told result) }
{
    let ranks = test_order(order)?;
    ranked_core(edit, ranks, array, last, room, numbers, starts)
}
