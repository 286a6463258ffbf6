// The public library's two tables of a pattern. Each call tests its refusals and then calls the crate that makes the table.
#![tactic(auto)]

ghost use Rattle.refusals.specs.Filled.{filled_of};
ghost use Rattle.lyndon_tables.specs.Calls.{ArrayMade, LastFactorsMade};

use order_test::test_order;
use prefix_making::make_last_factors;
use reach_making::make_lyndon_array;
use refusals::{MAX_PATTERN, Refusal};

// The reach table: entry i is the length of the longest Lyndon substring that starts at i. Refusals 13, 1, 8.
pub fn lyndon_array(pattern: &[u8], order: &[u8], array: &mut [u16]) -> Result<usize, Refusal>
    ensures { ArrayMade pattern.now order.now array.old array.new (filled_of result) }
{
    let ranks = test_order(order)?;
    if MAX_PATTERN < pattern.len() {
        return Err(Refusal::PatternTooLong);
    }
    if array.len() < pattern.len() {
        return Err(Refusal::RowTooShort);
    }
    make_lyndon_array(pattern, ranks, array);
    Ok(pattern.len())
}

// Not one function with the one above: C calls both, and they promise two tables, by two makers.
// The prefix table: entry q - 1 is the length of the last factor of the first q bytes. Refusals 13, 1, 8.
pub fn last_factors(pattern: &[u8], order: &[u8], last: &mut [u16]) -> Result<usize, Refusal>
    ensures { LastFactorsMade pattern.now order.now last.old last.new (filled_of result) }
{
    let ranks = test_order(order)?;
    if MAX_PATTERN < pattern.len() {
        return Err(Refusal::PatternTooLong);
    }
    if last.len() < pattern.len() {
        return Err(Refusal::RowTooShort);
    }
    make_last_factors(pattern, ranks, last);
    Ok(pattern.len())
}
