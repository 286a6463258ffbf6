// A function for each public call but edits: it prints the call and what is given, makes the call with a row of `room` entries, or a buffer of
// `room` bytes, and prints the answer with what the call leaves there.
use refusals::{MAX_PATTERN, Refusal};
use std::io;

// What each entry of a row holds before a call, and the longest row.
pub const OLD: u16 = 7777;

const SPACE: usize = MAX_PATTERN + 1;

// What each byte of a buffer holds before a call, and the longest buffer.
pub const BLANK: u8 = b'.';

pub const BUFFER: usize = MAX_PATTERN + 9;

// The call, the string that it is made on and the order.
fn given(rt: &impl Print, name: &[u8], s: &[u8], order: &[u8]) -> io::Result<()> {
    crate::text(rt, name)?;
    crate::word(rt, s)?;
    crate::order(rt, order)
}

// Makes a call that fills a row, and prints its answer.
fn filled<F: FnOnce(&mut [u16]) -> Result<usize, Refusal>>(
    rt: &impl Print,
    room: usize,
    call: F,
) -> io::Result<()>
    requires { F.IsAlwaysCallable call }
{
    let mut space = [OLD; SPACE];
    let row = &mut space[..room.min(SPACE)];
    let answer = call(row);
    crate::filled(rt, answer, row)
}

// Makes a call that fills a buffer, and prints its answer.
// not one with the above: a buffer differs from a row in its type, its size, what it held before and what prints it, so one function would take all four
fn written<F: FnOnce(&mut [u8]) -> Result<usize, Refusal>>(
    rt: &impl Print,
    room: usize,
    call: F,
) -> io::Result<()>
    requires { F.IsAlwaysCallable call }
{
    let mut space = [BLANK; BUFFER];
    let buffer = &mut space[..room.min(BUFFER)];
    let answer = call(buffer);
    crate::buffer(rt, answer, buffer)
}

pub fn factor(rt: &impl Print, pattern: &[u8], order: &[u8], room: usize) -> io::Result<()> {
    given(rt, b"factor", pattern, order)?;
    filled(rt, room, |row| lyndon::factor(pattern, order, row))
}

pub fn lyndon_array(rt: &impl Print, pattern: &[u8], order: &[u8], room: usize) -> io::Result<()> {
    given(rt, b"lyndon_array", pattern, order)?;
    filled(
        rt,
        room,
        |row| lyndon_tables::lyndon_array(pattern, order, row),
    )
}

pub fn last_factors(rt: &impl Print, pattern: &[u8], order: &[u8], room: usize) -> io::Result<()> {
    given(rt, b"last_factors", pattern, order)?;
    filled(
        rt,
        room,
        |row| lyndon_tables::last_factors(pattern, order, row),
    )
}

// The pattern in the buffer is left free, so its Lyndon array under the order is printed for it, and then the bytes behind it: not by `written`,
// which prints the buffer.
pub fn realise_array(rt: &impl Print, wanted: &[u16], order: &[u8], room: usize) -> io::Result<()> {
    crate::text(rt, b"realise_array")?;
    crate::row(rt, b"wanted", wanted)?;
    crate::order(rt, order)?;
    let mut space = [BLANK; BUFFER];
    let buffer = &mut space[..room.min(BUFFER)];
    let answer = lyndon_wanted::realise_array(wanted, order, buffer);
    realised(rt, answer, order, buffer)
}

fn realised(
    rt: &impl Print,
    answer: Result<usize, Refusal>,
    order: &[u8],
    buffer: &[u8],
) -> io::Result<()> {
    let count = answer.unwrap_or(0).min(buffer.len());
    let mut space = [OLD; SPACE];
    let array = &mut space[..count.min(SPACE)];
    let _ = lyndon_tables::lyndon_array(&buffer[..count], order, array);
    crate::realised(rt, answer, array, &buffer[count..])
}

// Not by `filled`: the answer tells two numbers, which are printed otherwise than a count.
pub fn longest_words(rt: &impl Print, pattern: &[u8], order: &[u8], room: usize) -> io::Result<()> {
    given(rt, b"longest_words", pattern, order)?;
    let mut space = [OLD; SPACE];
    let row = &mut space[..room.min(SPACE)];
    let answer = lyndon_words::longest_words(pattern, order, row);
    crate::starts(rt, answer, row)
}

pub fn longest_word(rt: &impl Print, pattern: &[u8], order: &[u8]) -> io::Result<()> {
    given(rt, b"longest_word", pattern, order)?;
    crate::text(rt, b": part")?;
    crate::word(rt, lyndon_trigger::longest_word(pattern, order))?;
    crate::text(rt, b"\n")
}

pub fn longest_word_place(rt: &impl Print, pattern: &[u8], order: &[u8]) -> io::Result<()> {
    given(rt, b"longest_word_place", pattern, order)?;
    crate::place(rt, lyndon_trigger::longest_word_place(pattern, order))
}

pub fn is_lyndon(rt: &impl Print, word: &[u8], order: &[u8]) -> io::Result<()> {
    given(rt, b"is_lyndon", word, order)?;
    crate::verdict(rt, lyndon_test::is_lyndon(word, order))
}

pub fn compare(rt: &impl Print, first: &[u8], second: &[u8], order: &[u8]) -> io::Result<()> {
    crate::text(rt, b"compare")?;
    crate::word(rt, first)?;
    crate::text(rt, b" with")?;
    crate::word(rt, second)?;
    crate::order(rt, order)?;
    crate::compared(rt, lyndon_compare::compare(first, second, order))
}

pub fn least_rotation(rt: &impl Print, pattern: &[u8], order: &[u8]) -> io::Result<()> {
    given(rt, b"least_rotation", pattern, order)?;
    crate::position(rt, lyndon_rotation::least_rotation(pattern, order))
}

pub fn lyndon_tree(rt: &impl Print, word: &[u8], order: &[u8], room: usize) -> io::Result<()> {
    given(rt, b"lyndon_tree", word, order)?;
    filled(rt, room, |row| lyndon_tree::lyndon_tree(word, order, row))
}

pub fn factor_prefix(
    rt: &impl Print,
    pattern: &[u8],
    order: &[u8],
    table: &[u16],
    end: usize,
    room: usize,
) -> io::Result<()> {
    given(rt, b"factor_prefix", pattern, order)?;
    crate::row(rt, b"table", table)?;
    crate::number(rt, b"end", end as u64)?;
    filled(rt, room, |row| {
        lyndon_prefix::factor_prefix(pattern, order, table, end, row)
    })
}

pub fn factor_suffix(
    rt: &impl Print,
    pattern: &[u8],
    order: &[u8],
    table: &[u16],
    start: usize,
    room: usize,
) -> io::Result<()> {
    given(rt, b"factor_suffix", pattern, order)?;
    crate::row(rt, b"table", table)?;
    crate::number(rt, b"start", start as u64)?;
    filled(rt, room, |row| {
        lyndon_suffix::factor_suffix(pattern, order, table, start, row)
    })
}

pub fn read_block(rt: &impl Print, bytes: &[u8]) -> io::Result<()> {
    crate::text(rt, b"read_block")?;
    crate::content(rt, bytes)?;
    crate::span(rt, block::read_block(bytes))
}

pub fn write_block(rt: &impl Print, pattern: &[u8], room: usize) -> io::Result<()> {
    crate::text(rt, b"write_block")?;
    crate::word(rt, pattern)?;
    written(rt, room, |buffer| block::write_block(pattern, buffer))
}

pub fn write_listing(rt: &impl Print, pattern: &[u8], order: &[u8], room: usize) -> io::Result<()> {
    given(rt, b"write_listing", pattern, order)?;
    written(rt, room, |buffer| {
        lyndon_text::write_listing(pattern, order, buffer)
    })
}

pub fn byte_order(rt: &impl Print, room: usize) -> io::Result<()> {
    crate::text(rt, b"byte_order")?;
    written(rt, room, |buffer| lyndon::byte_order(buffer))
}
