// The public library's way back from a wanted reach table to a pattern that has it. It tests its refusals, 12 by `wanted_testing`, and then calls
// `wanted_making`.
#![tactic(auto)]

ghost use Rattle.refusals.specs.Filled.{filled_of};
ghost use Rattle.lyndon_wanted.specs.Calls.{ArrayRealised};

use order_bytes::{bytes_of, replace_ranks};
use order_test::test_order;
use refusals::{MAX_WANTED, Refusal};
use wanted_making::write_symbols;
use wanted_testing::nests;

// A pattern whose reach table is the wanted one; where there are several, one of them. Refusals 13, 11, 12, 8.
pub fn realise_array(wanted: &[u16], order: &[u8], pattern: &mut [u8]) -> Result<usize, Refusal>
    ensures { ArrayRealised wanted.now order.now pattern.old pattern.new (filled_of result) }
{
    let ranks = test_order(order)?;
    if MAX_WANTED < wanted.len() {
        return Err(Refusal::WantedTooLong);
    }
    if !nests(wanted) {
        return Err(Refusal::NoPattern);
    }
    if pattern.len() < wanted.len() {
        return Err(Refusal::RowTooShort);
    }
    write_symbols(wanted, pattern);
    if 0 < ranks.list.len() {
        let bytes = bytes_of(order);
        replace_ranks(pattern, wanted.len(), &bytes);
    }
    Ok(wanted.len())
}
