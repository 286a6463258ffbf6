// The public library's comparison of two strings. It tests its refusals and then calls `comparing`, whose comparison the whole engine uses.
#![tactic(auto)]

ghost use Rattle.std.specs.Prelude.{◌≡◌};
ghost use Rattle.lyndon_compare.specs.Calls.{comparison, comparison_of};

use comparing::Compared;
use order_test::test_order;
use refusals::{MAX_PATTERN, Refusal};

// The length of the common beginning of two strings, and which is smaller. Refusals 13, 1, the second for either.
pub fn compare(first: &[u8], second: &[u8], order: &[u8]) -> Result<Compared, Refusal>
    ensures { comparison_of result ≡ comparison first.now second.now order.now }
{
    let ranks = test_order(order)?;
    if MAX_PATTERN < first.len() {
        return Err(Refusal::PatternTooLong);
    }
    if MAX_PATTERN < second.len() {
        return Err(Refusal::PatternTooLong);
    }
    Ok(comparing::compare(first, second, ranks))
}
