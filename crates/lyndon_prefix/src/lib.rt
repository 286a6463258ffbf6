// The public library on one pattern: the factors of its prefixes, by its prefix table, which `lyndon_tables` makes.
// The call tests its refusals in their order and then calls the crates that do the work; it requires nothing. `lyndon_suffix` is
// no twin in a type or a constant: C calls both, and they read two tables.
#![tactic(auto)]

ghost use Rattle.refusals.specs.Filled.{filled_of};
ghost use Rattle.lyndon_prefix.specs.Calls.{PrefixFactored};

use order_test::test_order;
use prefix_chain::{count_prefix, write_prefix};
use prefix_testing::is_last_factors;
use refusals::{MAX_PATTERN, Refusal};

// The groups of the factors of the first `end` bytes, from the pattern's prefix table. Refusals 13, 1, 2, 5, 8.
pub fn factor_prefix(
    pattern: &[u8],
    order: &[u8],
    table: &[u16],
    end: usize,
    groups: &mut [u16],
) -> Result<usize, Refusal>
    ensures { PrefixFactored pattern.now order.now table.now end groups.old groups.new (filled_of result) }
{
    let ranks = test_order(order)?;
    let n = pattern.len();
    if MAX_PATTERN < n {
        return Err(Refusal::PatternTooLong);
    }
    if n < end {
        return Err(Refusal::PastEnd);
    }
    if table.len() < n {
        return Err(Refusal::NotTheTable);
    }
    if !is_last_factors(pattern, ranks, table) {
        return Err(Refusal::NotTheTable);
    }
    let count = count_prefix(pattern, ranks, table, end);
    if groups.len() / 3 < count {
        return Err(Refusal::RowTooShort);
    }
    write_prefix(pattern, ranks, table, end, count, groups);
    Ok(count)
}
