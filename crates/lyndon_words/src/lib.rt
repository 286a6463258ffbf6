// The public library's longest words of a pattern: their length and starts. The first of them is `lyndon_trigger`'s.
// The call answers the first of its refusals, in their order, and leaves the work to `longest`; it requires nothing.
#![tactic(auto)]

ghost use Rattle.lyndon_words.specs.Calls.{StartsListed, starts_told};

use longest::measure;
use longest_writing::write_longest;
use order_test::test_order;
use refusals::{MAX_PATTERN, Refusal};

// The answer about the longest words: their length, and how many starts were written.
#[derive(Clone, Copy)]
pub struct Starts {
    pub length: usize,
    pub count: usize,
}

// The length of the longest Lyndon substrings, and all their starts. Refusals 13, 1, 8.
pub fn longest_words(pattern: &[u8], order: &[u8], starts: &mut [u16]) -> Result<Starts, Refusal>
    ensures { StartsListed pattern.now order.now starts.old starts.new (starts_told result) }
{
    let ranks = test_order(order)?;
    if MAX_PATTERN < pattern.len() {
        return Err(Refusal::PatternTooLong);
    }
    let best = measure(pattern, ranks);
    if starts.len() < best.found.count {
        return Err(Refusal::RowTooShort);
    }
    write_longest(pattern, ranks, best.found, best.run, starts);
    Ok(Starts {
        length: best.found.length,
        count: best.found.count,
    })
}
