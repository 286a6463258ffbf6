// Refusal 13, of every call that takes an order: no entries, 255 and 257, and one value twice. It comes before every other refusal.
use order_bytes::fill_byte_order;
use show::calls;
use show::edits::edit_with;
use std::io;

// Every call, with what it accepts in byte order.
fn each(rt: &impl Print, s: &[u8], order: &[u8], array: &[u16], last: &[u16]) -> io::Result<()> {
    calls::factor(rt, s, order, 3)?;
    calls::lyndon_array(rt, s, order, 2)?;
    calls::last_factors(rt, s, order, 2)?;
    calls::realise_array(rt, array, order, 2)?;
    calls::longest_words(rt, s, order, 1)?;
    calls::longest_word(rt, s, order)?;
    calls::longest_word_place(rt, s, order)?;
    calls::is_lyndon(rt, s, order)?;
    calls::least_rotation(rt, s, order)?;
    calls::lyndon_tree(rt, s, order, 6)?;
    calls::compare(rt, s, s, order)?;
    calls::factor_prefix(rt, s, order, last, 2, 3)?;
    calls::factor_suffix(rt, s, order, array, 0, 3)?;
    edit_with(rt, s, order, array, last, 1, 1, s, 2, 2)?;
    calls::write_listing(rt, s, order, 46)
}

fn on(rt: &impl Print, heading: &[u8], order: &[u8]) -> io::Result<()> {
    show::heading(rt, heading)?;
    each(rt, b"ab", order, &[2, 1], &[1, 2])
}

fn lengths(rt: &impl Print) -> io::Result<()> {
    let mut space = [0; 257];
    fill_byte_order(&mut space);
    on(rt, b"byte order: nothing is refused", &space[0..256])?;
    on(rt, b"no order: no entries", &space[0..0])?;
    on(rt, b"no order: 255 entries", &space[0..255])?;
    on(rt, b"no order: 257 entries", &space[0..257])
}

// 16,385 bytes, tables and rows of 0 entries, the largest position, 257 wanted entries of 0: all that a call refuses holds.
fn all(rt: &impl Print, s: &[u8], order: &[u8]) -> io::Result<()> {
    show::heading(rt, b"refusals that hold: 13 and all others of the call")?;
    calls::factor(rt, s, order, 0)?;
    calls::lyndon_array(rt, s, order, 0)?;
    calls::last_factors(rt, s, order, 0)?;
    calls::realise_array(rt, &[0; 257], order, 0)?;
    calls::longest_words(rt, s, order, 0)?;
    calls::longest_word(rt, s, order)?;
    calls::longest_word_place(rt, s, order)?;
    calls::is_lyndon(rt, s, order)?;
    calls::least_rotation(rt, s, order)?;
    calls::lyndon_tree(rt, s, order, 0)?;
    calls::compare(rt, s, s, order)?;
    calls::factor_prefix(rt, s, order, &[], usize::MAX, 0)?;
    calls::factor_suffix(rt, s, order, &[], usize::MAX, 0)?;
    edit_with(rt, s, order, &[], &[], 2, 1, s, 0, 0)?;
    calls::write_listing(rt, s, order, 0)
}

fn parts(rt: &impl Print, s: &[u8], order: &[u8], table: &[u16]) -> io::Result<()> {
    show::heading(
        rt,
        b"refusals that hold: 13 2; 13 2; 13 5; 13 5; 13 8; 13 8",
    )?;
    calls::factor_prefix(rt, s, order, table, 3, 3)?;
    calls::factor_suffix(rt, s, order, table, 3, 3)?;
    calls::factor_prefix(rt, s, order, &[], 2, 3)?;
    calls::factor_suffix(rt, s, order, &[], 2, 3)?;
    calls::factor_prefix(rt, s, order, table, 2, 2)?;
    calls::factor_suffix(rt, s, order, table, 0, 2)
}

// Of one letter both tables are 1 .. 1.
fn edits(rt: &impl Print, s: &[u8], order: &[u8], table: &[u16]) -> io::Result<()> {
    show::heading(rt, b"refusals that hold: 13 2; 13 3; 13 4; 13 5; 13 8")?;
    edit_with(rt, s, order, table, table, 2, 1, b"a", 1, 16384)?;
    edit_with(rt, s, order, table, table, 0, 16384, &[b'a'; 257], 1, 16384)?;
    edit_with(rt, s, order, table, table, 0, 0, b"a", 1, 16384)?;
    edit_with(rt, s, order, table, &[], 0, 1, b"a", 1, 16384)?;
    edit_with(rt, s, order, table, table, 0, 1, b"a", 1, 0)
}

fn others(rt: &impl Print, order: &[u8]) -> io::Result<()> {
    show::heading(
        rt,
        b"refusals that hold: 13 6 7; 13 7; 13 10; 13 11; 13 12; 13 8; 13 8; 13 8",
    )?;
    calls::lyndon_tree(rt, &[b'a'; 257], order, 1026)?;
    calls::lyndon_tree(rt, b"ba", order, 6)?;
    calls::least_rotation(rt, b"abab", order)?;
    calls::realise_array(rt, &[1; 257], order, 257)?;
    calls::realise_array(rt, &[2, 2, 1], order, 3)?;
    calls::realise_array(rt, &[1], order, 0)?;
    calls::lyndon_tree(rt, b"ab", order, 5)?;
    calls::write_listing(rt, b"ab", order, 45)
}

fn first(rt: &impl Print, order: &[u8]) -> io::Result<()> {
    all(rt, &[b'a'; 16385], order)?;
    parts(rt, b"aa", order, &[1, 1])?;
    edits(rt, &[b'a'; 16384], order, &[1; 16384])?;
    others(rt, order)
}

// What scripts without an order of their own take for one.
fn byte_order(rt: &impl Print) -> io::Result<()> {
    show::heading(
        rt,
        b"byte order written: a row of none, one short, exact, longer",
    )?;
    calls::byte_order(rt, 0)?;
    calls::byte_order(rt, 255)?;
    calls::byte_order(rt, 256)?;
    calls::byte_order(rt, 257)
}

pub(crate) fn run(rt: &impl Print) -> io::Result<()> {
    lengths(rt)?;
    let mut order = [0; 256];
    fill_byte_order(&mut order);
    order[255] = 0;
    on(rt, b"no order: 0 twice, first and last", &order)?;
    order[255] = 255;
    order[16] = 17;
    on(rt, b"no order: 17 twice, side by side", &order)?;
    first(rt, &order)?;
    byte_order(rt)
}
