// The public library on one pattern: the factors of its suffixes, by its reach table, which `lyndon_tables` makes.
// The call tests its refusals in their order and then calls the crates that do the work; it requires nothing.
#![tactic(auto)]

ghost use Rattle.refusals.specs.Filled.{filled_of};
ghost use Rattle.lyndon_suffix.specs.Calls.{SuffixFactored};

use order_test::test_order;
use reach_testing::is_lyndon_array;
use refusals::{MAX_PATTERN, Refusal};
use suffix_chain::{count_suffix, write_suffix};

// The groups of the factors of the bytes from `start` on, from the pattern's reach table. Refusals 13, 1, 2, 5, 8.
pub fn factor_suffix(
    pattern: &[u8],
    order: &[u8],
    table: &[u16],
    start: usize,
    groups: &mut [u16],
) -> Result<usize, Refusal>
    ensures { SuffixFactored pattern.now order.now table.now start groups.old groups.new (filled_of result) }
{
    let ranks = test_order(order)?;
    let n = pattern.len();
    if MAX_PATTERN < n {
        return Err(Refusal::PatternTooLong);
    }
    if n < start {
        return Err(Refusal::PastEnd);
    }
    if table.len() < n {
        return Err(Refusal::NotTheTable);
    }
    if !is_lyndon_array(pattern, ranks, table) {
        return Err(Refusal::NotTheTable);
    }
    let count = count_suffix(pattern, ranks, table, start);
    if groups.len() / 3 < count {
        return Err(Refusal::RowTooShort);
    }
    write_suffix(pattern, ranks, table, start, groups);
    Ok(count)
}
