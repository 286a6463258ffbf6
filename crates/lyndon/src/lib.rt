// The public library's factors of a pattern, and byte order. Tables are made by `lyndon_tables`; `lyndon_prefix` and `lyndon_suffix` factor a part.
// Each call tests its refusals in the order that its comment names and then calls the crate that does the work; none of them requires anything.
#![tactic(auto)]

ghost use Rattle.refusals.specs.Filled.{filled_of};
ghost use Rattle.lyndon.specs.Calls.{Factored, ByteOrderWritten};

use factoring::{count_groups, fill_groups};
use order_bytes::fill_byte_order;
use order_test::test_order;
use refusals::{MAX_PATTERN, Refusal};
use symbols::ORDER;

// The groups of the pattern's factors, three numbers each: start, factor length, power. Refusals 13, 1, 8.
pub fn factor(pattern: &[u8], order: &[u8], groups: &mut [u16]) -> Result<usize, Refusal>
    ensures { Factored pattern.now order.now groups.old groups.new (filled_of result) }
{
    let ranks = test_order(order)?;
    if MAX_PATTERN < pattern.len() {
        return Err(Refusal::PatternTooLong);
    }
    if groups.len() / 3 < pattern.len() {
        // there are no more groups than bytes: they are counted first only in a row too short for so many
        let count = count_groups(pattern, ranks, 0);
        if groups.len() / 3 < count {
            return Err(Refusal::RowTooShort);
        }
    }
    Ok(fill_groups(pattern, ranks, 0, groups))
}

// Byte order, each byte's value as its rank, for scripts that have no order of their own. Refusal 8.
pub fn byte_order(order: &mut [u8]) -> Result<usize, Refusal>
    ensures { ByteOrderWritten order.old order.new (filled_of result) }
{
    if order.len() < ORDER {
        return Err(Refusal::RowTooShort);
    }
    fill_byte_order(order);
    Ok(ORDER)
}
