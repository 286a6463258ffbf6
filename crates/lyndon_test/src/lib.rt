// The public library's test of a string, whether it is a Lyndon word. It tests its refusals and then looks at the first group of factors.
#![tactic(auto)]

ghost use Rattle.lyndon_test.specs.Calls.{LyndonTold, verdict_of};

use order_test::test_order;
use refusals::{MAX_PATTERN, Refusal};
use scan::next_group;

// Whether the string is a Lyndon word. Refusals 13, 1.
pub fn is_lyndon(word: &[u8], order: &[u8]) -> Result<bool, Refusal>
    ensures { LyndonTold word.now order.now (verdict_of result) }
{
    let ranks = test_order(order)?;
    if MAX_PATTERN < word.len() {
        return Err(Refusal::PatternTooLong);
    }
    if word.is_empty() {
        return Ok(false);
    }
    Ok(next_group(word, ranks, 0).length == word.len())
}
