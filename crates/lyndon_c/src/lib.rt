// The calls of all the public crates but `lyndon_edit`, which is `lyndon_edit_c`'s, under C names, on numbers and slices:
// the answer is the refusal's number, where the call has one, and what else is told goes through `&mut`. Each body is the call and the taking
// apart of its answer; include/lyndon.h declares them, and has the interface's number that is told here. Slices stand before numbers in every
// list of parameters: a slice that got the last register and a place on the stack would not be found where Rust puts one.
#![tactic(auto)]

ghost use Rattle.std.specs.Prelude.{◌≡◌};
ghost use Rattle.refusals.specs.Interface.{interface};
ghost use Rattle.lyndon.specs.Calls.{Factored, ByteOrderWritten};
ghost use Rattle.lyndon_tables.specs.Calls.{ArrayMade, LastFactorsMade};
ghost use Rattle.lyndon_wanted.specs.Calls.{ArrayRealised};
ghost use Rattle.lyndon_words.specs.Calls.{StartsListed};
ghost use Rattle.lyndon_trigger.specs.Calls.{word_place};
ghost use Rattle.lyndon_test.specs.Calls.{LyndonTold};
ghost use Rattle.lyndon_rotation.specs.Calls.{RotationFound};
ghost use Rattle.lyndon_tree.specs.Calls.{TreeListed};
ghost use Rattle.lyndon_compare.specs.Calls.{comparison};
ghost use Rattle.lyndon_prefix.specs.Calls.{PrefixFactored};
ghost use Rattle.lyndon_suffix.specs.Calls.{SuffixFactored};
ghost use Rattle.lyndon_text.specs.Calls.{ListingWritten};
ghost use Rattle.block.specs.Calls.{BlockRead, BlockWritten};
ghost use Rattle.lyndon_c.specs.Flat.{flat_of};

use block::{read_block, write_block};
use block_place::Span;
use comparing::{Compared, smaller_number};
use lyndon::{byte_order, factor};
use lyndon_compare::compare;
use lyndon_prefix::factor_prefix;
use lyndon_rotation::least_rotation;
use lyndon_suffix::factor_suffix;
use lyndon_tables::last_factors;
use lyndon_test::is_lyndon;
use lyndon_text::write_listing;
use lyndon_trigger::longest_word_place;
use lyndon_wanted::realise_array;
use lyndon_words::{Starts, longest_words};
use refusals::{INTERFACE, refusal_of};
use std::cmp::Ordering;

// Each archive tells it, so that it stands in `lyndon_edit_c` too.
#[unsafe(no_mangle)]
pub extern "C" fn lyndon_interface() -> u32
    ensures { result ≡ interface }
{
    INTERFACE
}

#[unsafe(no_mangle)]
pub extern "C" fn lyndon_byte_order(order: &mut [u8], count: &mut usize) -> u8
    ensures { ByteOrderWritten order.old order.new (record { refusal = result; count = count.new }) }
{
    let answer = byte_order(order);
    *count = answer.unwrap_or(0);
    refusal_of(answer)
}

#[unsafe(no_mangle)]
pub extern "C" fn lyndon_factor(
    pattern: &[u8],
    order: &[u8],
    groups: &mut [u16],
    count: &mut usize,
) -> u8
    ensures { Factored pattern.now order.now groups.old groups.new (record { refusal = result; count = count.new }) }
{
    let answer = factor(pattern, order, groups);
    *count = answer.unwrap_or(0);
    refusal_of(answer)
}

#[unsafe(no_mangle)]
pub extern "C" fn lyndon_array(
    pattern: &[u8],
    order: &[u8],
    table: &mut [u16],
    count: &mut usize,
) -> u8
    ensures { ArrayMade pattern.now order.now table.old table.new (record { refusal = result; count = count.new }) }
{
    let answer = lyndon_tables::lyndon_array(pattern, order, table);
    *count = answer.unwrap_or(0);
    refusal_of(answer)
}

#[unsafe(no_mangle)]
pub extern "C" fn lyndon_last_factors(
    pattern: &[u8],
    order: &[u8],
    table: &mut [u16],
    count: &mut usize,
) -> u8
    ensures { LastFactorsMade pattern.now order.now table.old table.new (record { refusal = result; count = count.new }) }
{
    let answer = last_factors(pattern, order, table);
    *count = answer.unwrap_or(0);
    refusal_of(answer)
}

#[unsafe(no_mangle)]
pub extern "C" fn lyndon_realise_array(
    wanted: &[u16],
    order: &[u8],
    pattern: &mut [u8],
    count: &mut usize,
) -> u8
    ensures { ArrayRealised wanted.now order.now pattern.old pattern.new (record { refusal = result; count = count.new }) }
{
    let answer = realise_array(wanted, order, pattern);
    *count = answer.unwrap_or(0);
    refusal_of(answer)
}

#[unsafe(no_mangle)]
pub extern "C" fn lyndon_longest_words(
    pattern: &[u8],
    order: &[u8],
    starts: &mut [u16],
    size: &mut usize,
    count: &mut usize,
) -> u8
    ensures { StartsListed pattern.now order.now starts.old starts.new (record { refusal = result; length = size.new; count = count.new }) }
{
    let answer = longest_words(pattern, order, starts);
    let told = answer.unwrap_or(Starts {
        length: 0,
        count: 0,
    });
    *size = told.length;
    *count = told.count;
    refusal_of(answer)
}

// A reference is no answer for C, which gets the part's place in its pattern.
#[unsafe(no_mangle)]
pub extern "C" fn lyndon_longest_word(
    pattern: &[u8],
    order: &[u8],
    start: &mut usize,
    size: &mut usize,
)
    ensures { (start.new, size.new) ≡ word_place pattern.now order.now }
{
    let word = longest_word_place(pattern, order);
    *start = word.start;
    *size = word.length;
}

#[unsafe(no_mangle)]
pub extern "C" fn lyndon_is_lyndon(word: &[u8], order: &[u8], yes: &mut bool) -> u8
    ensures { LyndonTold word.now order.now (record { refusal = result; yes = yes.new }) }
{
    let answer = is_lyndon(word, order);
    *yes = answer.unwrap_or(false);
    refusal_of(answer)
}

// An ordering is no answer for C: it gets a number, and beside a refusal zeros.
#[unsafe(no_mangle)]
pub extern "C" fn lyndon_compare(
    first: &[u8],
    second: &[u8],
    order: &[u8],
    shared: &mut usize,
    smaller: &mut u8,
) -> u8
    ensures { (result, shared.new, smaller.new) ≡ flat_of (comparison first.now second.now order.now) }
{
    let answer = compare(first, second, order);
    let told = answer.unwrap_or(Compared {
        shared: 0,
        ordering: Ordering::Equal,
    });
    *shared = told.shared;
    *smaller = smaller_number(told.ordering);
    refusal_of(answer)
}

#[unsafe(no_mangle)]
pub extern "C" fn lyndon_least_rotation(pattern: &[u8], order: &[u8], start: &mut usize) -> u8
    ensures { RotationFound pattern.now order.now (record { refusal = result; start = start.new }) }
{
    let answer = least_rotation(pattern, order);
    *start = answer.unwrap_or(0);
    refusal_of(answer)
}

#[unsafe(no_mangle)]
pub extern "C" fn lyndon_tree(word: &[u8], order: &[u8], nodes: &mut [u16], count: &mut usize) -> u8
    ensures { TreeListed word.now order.now nodes.old nodes.new (record { refusal = result; count = count.new }) }
{
    let answer = lyndon_tree::lyndon_tree(word, order, nodes);
    *count = answer.unwrap_or(0);
    refusal_of(answer)
}

#[unsafe(no_mangle)]
pub extern "C" fn lyndon_factor_prefix(
    pattern: &[u8],
    order: &[u8],
    table: &[u16],
    groups: &mut [u16],
    end: usize,
    count: &mut usize,
) -> u8
    ensures { PrefixFactored pattern.now order.now table.now end groups.old groups.new (record { refusal = result; count = count.new }) }
{
    let answer = factor_prefix(pattern, order, table, end, groups);
    *count = answer.unwrap_or(0);
    refusal_of(answer)
}

#[unsafe(no_mangle)]
pub extern "C" fn lyndon_factor_suffix(
    pattern: &[u8],
    order: &[u8],
    table: &[u16],
    groups: &mut [u16],
    start: usize,
    count: &mut usize,
) -> u8
    ensures { SuffixFactored pattern.now order.now table.now start groups.old groups.new (record { refusal = result; count = count.new }) }
{
    let answer = factor_suffix(pattern, order, table, start, groups);
    *count = answer.unwrap_or(0);
    refusal_of(answer)
}

#[unsafe(no_mangle)]
pub extern "C" fn lyndon_write_listing(
    pattern: &[u8],
    order: &[u8],
    text: &mut [u8],
    count: &mut usize,
) -> u8
    ensures { ListingWritten pattern.now order.now text.old text.new (record { refusal = result; count = count.new }) }
{
    let answer = write_listing(pattern, order, text);
    *count = answer.unwrap_or(0);
    refusal_of(answer)
}

#[unsafe(no_mangle)]
pub extern "C" fn lyndon_read_block(bytes: &[u8], place: &mut usize, count: &mut usize) -> u8
    ensures { BlockRead bytes.now (record { refusal = result; place = place.new; count = count.new }) }
{
    let answer = read_block(bytes);
    let told = answer.unwrap_or(Span { place: 0, count: 0 });
    *place = told.place;
    *count = told.count;
    refusal_of(answer)
}

#[unsafe(no_mangle)]
pub extern "C" fn lyndon_write_block(pattern: &[u8], bytes: &mut [u8], count: &mut usize) -> u8
    ensures { BlockWritten pattern.now bytes.old bytes.new (record { refusal = result; count = count.new }) }
{
    let answer = write_block(pattern, bytes);
    *count = answer.unwrap_or(0);
    refusal_of(answer)
}
