// The call that answers an edit, for Rust and C: the rows go through as they lie, and the answer comes as one flat struct; and the interface's
// number, which each archive tells.
// A slice is two parameters for the caller, its pointer and its length; a Rust caller declares them so, and not as `&[u8]`.
#![tactic(auto)]

ghost use Rattle.std.specs.Prelude.{◌≡◌};
ghost use Rattle.refusals.specs.Interface.{interface};
ghost use Rattle.edit_answered.specs.Calls.{EditAnswered};
ghost use Rattle.edit_flat.specs.Flat.{Exports};

use edit_flat::EditAnswer;
use records::Group;
use refusals::INTERFACE;

// The middle groups go to a lent row of records.
#[unsafe(no_mangle)]
pub extern "C" fn lyndon_edit(
    pattern: &[u8],
    order: &[u8],
    array: &[u16],
    last: &[u16],
    from: usize,
    to: usize,
    block: &[u8],
    middle: &mut [Group],
    starts: &mut [u16],
) -> EditAnswer
    ensures { Exports (EditAnswered pattern.now order.now array.now last.now from to block.now middle.old middle.new starts.old starts.new) result }
{
    lyndon_edit::edit(pattern, order, array, last, from, to, block, middle, starts).into()
}

#[unsafe(no_mangle)]
pub extern "C" fn lyndon_edit_interface() -> u32
    ensures { result ≡ interface }
{
    INTERFACE
}
