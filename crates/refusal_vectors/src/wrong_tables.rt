// Refusal 5: a table that is shorter than the pattern, or one of whose first n entries is wrong, though the answer may not need it.
use show::calls::OLD;
use show::{calls, changed};
use std::io;

// P11's tables.
const LAST: [u16; 13] = [1, 2, 1, 2, 5, 1, 2, 1, 2, 5, 1, 2, 13];

const REACH: [u16; 13] = [13, 1, 3, 1, 1, 8, 1, 3, 1, 1, 3, 1, 1];

// A table of 0 entries, one entry too short, and longer: past the first n, entries are not read.
fn lengths(rt: &impl Print, s: &[u8], order: &[u8]) -> io::Result<()> {
    show::heading(rt, b"tables: none, one short, longer")?;
    calls::factor_prefix(rt, s, order, &[], 11, 6)?;
    calls::factor_prefix(rt, s, order, &[1, 2, 1, 2, 5, 1, 2, 1, 2, 5, 1, 2], 11, 6)?;
    calls::factor_prefix(
        rt,
        s,
        order,
        &[1, 2, 1, 2, 5, 1, 2, 1, 2, 5, 1, 2, 13, OLD, 0],
        11,
        6,
    )?;
    calls::factor_suffix(rt, s, order, &[], 1, 9)?;
    calls::factor_suffix(rt, s, order, &[13, 1, 3, 1, 1, 8, 1, 3, 1, 1, 3, 1], 1, 9)?;
    calls::factor_suffix(
        rt,
        s,
        order,
        &[13, 1, 3, 1, 1, 8, 1, 3, 1, 1, 3, 1, 1, OLD, 0],
        1,
        9,
    )
}

fn swapped(rt: &impl Print, s: &[u8], order: &[u8]) -> io::Result<()> {
    show::heading(rt, b"tables: the other one")?;
    calls::factor_prefix(rt, s, order, &REACH, 11, 6)?;
    calls::factor_suffix(rt, s, order, &LAST, 1, 9)
}

// One entry of the table set to a value that it must not have: the first, one in the middle and the last.
fn prefixes(rt: &impl Print, s: &[u8], order: &[u8]) -> io::Result<()> {
    calls::factor_prefix(rt, s, order, &changed(LAST, 0, 2), 11, 6)?;
    calls::factor_prefix(rt, s, order, &changed(LAST, 6, 1), 11, 6)?;
    calls::factor_prefix(rt, s, order, &changed(LAST, 12, 12), 11, 6)?;
    calls::factor_prefix(rt, s, order, &changed(LAST, 12, 0), 11, 6)?;
    calls::factor_prefix(rt, s, order, &changed(LAST, 12, 65535), 0, 6)
}

fn suffixes(rt: &impl Print, s: &[u8], order: &[u8]) -> io::Result<()> {
    calls::factor_suffix(rt, s, order, &changed(REACH, 0, 12), 1, 9)?;
    calls::factor_suffix(rt, s, order, &changed(REACH, 6, 2), 1, 9)?;
    calls::factor_suffix(rt, s, order, &changed(REACH, 12, 2), 1, 9)?;
    calls::factor_suffix(rt, s, order, &changed(REACH, 12, 0), 1, 9)?;
    calls::factor_suffix(rt, s, order, &changed(REACH, 0, 65535), 13, 9)
}

fn wrong(rt: &impl Print, s: &[u8], order: &[u8]) -> io::Result<()> {
    show::heading(rt, b"tables: one wrong entry")?;
    prefixes(rt, s, order)?;
    suffixes(rt, s, order)
}

pub(crate) fn run(rt: &impl Print, order: &[u8]) -> io::Result<()> {
    lengths(rt, b"ababbababbabb", order)?;
    swapped(rt, b"ababbababbabb", order)?;
    wrong(rt, b"ababbababbabb", order)
}
