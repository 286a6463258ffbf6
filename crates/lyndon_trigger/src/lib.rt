// The public library's trigger word of a pattern, the first of its longest words: as a part and as a place.
// Each call answers the first of its refusals, in their order, and leaves the work to `longest`; none of them requires anything.
#![tactic(auto)]

ghost use Rattle.std.specs.Prelude.{◌≡◌};
ghost use Rattle.lyndon_trigger.specs.Calls.{word_place, WordCut};

use longest::measure;
use order_test::test_order;
use refusals::MAX_PATTERN;

#[derive(Clone, Copy)]
pub struct WordPlace {
    pub start: usize,
    pub length: usize,
}

// Where the first of the longest Lyndon substrings is; both numbers are 0 where the pattern is empty or refused. For C, which takes no part.
pub fn longest_word_place(pattern: &[u8], order: &[u8]) -> WordPlace
    ensures { (result.start, result.length) ≡ word_place pattern.now order.now }
{
    let nowhere = WordPlace {
        start: 0,
        length: 0,
    };
    let Ok(ranks) = test_order(order) else {
        return nowhere;
    };
    if MAX_PATTERN < pattern.len() {
        return nowhere;
    }
    let found = measure(pattern, ranks).found;
    WordPlace {
        start: found.start,
        length: found.length,
    }
}

// The first of the longest Lyndon substrings, as a part of the pattern; the empty part where the call is refused.
pub fn longest_word<'a>(pattern: &'a [u8], order: &[u8]) -> &'a [u8]
    ensures { WordCut pattern.now order.now pattern.entry.ref_ptr result.now result.ref_ptr }
{
    let word = longest_word_place(pattern, order);
    &pattern[word.start..word.start + word.length]
}
