// The public call that answers an edit of a stored pattern, with the middle groups as records. It tests refusals 13, 1, 2, 3, 4, 5 and 8 in this
// order and writes nothing where one holds; it requires nothing. `edit_core` does the work on rows of numbers.
#![tactic(auto)]

ghost use Rattle.edit.specs.Core.{answer_told};
ghost use Rattle.edit_answered.specs.Calls.{EditAnswered};

use edit::{Counts, MAX_MIDDLE};
use edit_core::core;
use records::{Group, store_all};
use refusals::Refusal;
use splicing::Edit;

// The middle groups go to a lent row of records.
pub fn edit(
    pattern: &[u8],
    order: &[u8],
    array: &[u16],
    last: &[u16],
    from: usize,
    to: usize,
    block: &[u8],
    middle: &mut [Group],
    starts: &mut [u16],
) -> Result<Counts, Refusal>
    ensures { EditAnswered pattern.now order.now array.now last.now from to block.now middle.old middle.new starts.old starts.new (answer_told result) }
{
    let mut numbers = [0u16; 3 * MAX_MIDDLE];
    let edit = Edit {
        pattern,
        from,
        to,
        block,
    };
    let counts = core(edit, order, array, last, middle.len(), &mut numbers, starts)?;
    store_all(middle, &numbers, counts.groups);
    Ok(counts)
}
