// The public library's listing of a pattern. It tests its refusals in their order and then calls `text_lines`, which does the work.
#![tactic(auto)]

ghost use Rattle.refusals.specs.Filled.{filled_of};
ghost use Rattle.lyndon_text.specs.Calls.{ListingWritten};

use order_test::test_order;
use refusals::{MAX_PATTERN, Refusal};
use text_lines::{listing_length, write_text};

// The listing of the pattern's groups, as CSV; the count is of bytes. Refusals 13, 1, 8.
pub fn write_listing(pattern: &[u8], order: &[u8], text: &mut [u8]) -> Result<usize, Refusal>
    ensures { ListingWritten pattern.now order.now text.old text.new (filled_of result) }
{
    let ranks = test_order(order)?;
    if MAX_PATTERN < pattern.len() {
        return Err(Refusal::PatternTooLong);
    }
    if text.len() < 32 + 20 * pattern.len() {
        // no listing of so many bytes is longer: it is measured first only in a buffer too short for that
        let count = listing_length(pattern, ranks);
        if text.len() < count {
            return Err(Refusal::RowTooShort);
        }
    }
    Ok(write_text(pattern, ranks, text))
}
