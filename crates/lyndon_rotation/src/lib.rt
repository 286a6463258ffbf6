// The public library's mark of a pattern that is looped: the start of its least rotation. It tests its refusals and then calls `rotation`.
#![tactic(auto)]

ghost use Rattle.lyndon_rotation.specs.Calls.{RotationFound, position_of};

use order_test::test_order;
use refusals::{MAX_PATTERN, Refusal};
use rotation::least_start;

// The start of the least rotation, 0 for the empty pattern. Refusals 13, 1, 10.
pub fn least_rotation(pattern: &[u8], order: &[u8]) -> Result<usize, Refusal>
    ensures { RotationFound pattern.now order.now (position_of result) }
{
    let ranks = test_order(order)?;
    if MAX_PATTERN < pattern.len() {
        return Err(Refusal::PatternTooLong);
    }
    let found = least_start(pattern, ranks);
    if found.repeated {
        return Err(Refusal::Repeated);
    }
    Ok(found.start)
}
