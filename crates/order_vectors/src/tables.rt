// Refusal 5: tables that are right under one order and wrong under another.
use crate::orders::moved;
use order_bytes::fill_byte_order;
use show::calls;
use show::calls::OLD;
use show::edits::edit_with;
use std::io;

// Both tables given are those of byte order: both together, and each beside a right one.
fn edits(rt: &impl Print, s: &[u8], order: &[u8], array: &[u16], last: &[u16]) -> io::Result<()> {
    edit_with(rt, s, order, array, last, 5, 6, b"b", 1, 1)?;
    let mut own = [OLD; 13];
    let _ = lyndon_tables::lyndon_array(s, order, &mut own);
    edit_with(rt, s, order, &own, last, 5, 6, b"b", 1, 1)?;
    let _ = lyndon_tables::last_factors(s, order, &mut own);
    edit_with(rt, s, order, array, &own, 5, 6, b"b", 1, 1)
}

// The tables under one order, lent to questions under another.
fn lent(rt: &impl Print, s: &[u8], of: &[u8], order: &[u8], table: &mut [u16]) -> io::Result<()> {
    let _ = lyndon_tables::last_factors(s, of, table);
    calls::factor_prefix(rt, s, order, table, s.len(), 3)?;
    let _ = lyndon_tables::lyndon_array(s, of, table);
    calls::factor_suffix(rt, s, order, table, 0, 3)
}

// Where b comes first this is one word, which grows by sixteen bytes.
fn grown(rt: &impl Print, s: &[u8], order: &[u8]) -> io::Result<()> {
    let mut other = [0; 256];
    moved(&mut other);
    lent(rt, s, &other, order, &mut [OLD; 25])
}

pub(crate) fn run(rt: &impl Print, order: &[u8]) -> io::Result<()> {
    edits(
        rt,
        b"acbabcabcabac",
        order,
        &[3, 1, 1, 3, 2, 1, 3, 2, 1, 4, 1, 2, 1],
        &[1, 2, 3, 1, 2, 3, 1, 2, 3, 1, 2, 1, 4],
    )?;
    let mut other = [0; 256];
    fill_byte_order(&mut other);
    lent(rt, b"acbabcabcabac", &other, order, &mut [OLD; 13])?;
    lent(rt, b"acbabcabcabac", order, &other, &mut [OLD; 13])?;
    // one letter has the same tables in every order
    lent(rt, b"aaa", &other, order, &mut [OLD; 3])?;
    grown(rt, b"baaaaaaaacccccccccccccccc", order)
}
