// Refusal 2: positions 0 and n are accepted, n + 1 and the largest are not. Nothing comes before 0 or after n, so a row of 0 entries is enough there.
use show::calls;
use std::io;

fn prefixes(rt: &impl Print, s: &[u8], order: &[u8], table: &[u16]) -> io::Result<()> {
    calls::factor_prefix(rt, s, order, table, 0, 0)?;
    calls::factor_prefix(rt, s, order, table, 13, 3)?;
    calls::factor_prefix(rt, s, order, table, 14, 3)?;
    calls::factor_prefix(rt, s, order, table, usize::MAX, 3)
}

fn suffixes(rt: &impl Print, s: &[u8], order: &[u8], table: &[u16]) -> io::Result<()> {
    calls::factor_suffix(rt, s, order, table, 0, 3)?;
    calls::factor_suffix(rt, s, order, table, 12, 3)?;
    calls::factor_suffix(rt, s, order, table, 13, 0)?;
    calls::factor_suffix(rt, s, order, table, 14, 3)?;
    calls::factor_suffix(rt, s, order, table, usize::MAX, 3)
}

pub(crate) fn run(rt: &impl Print, order: &[u8]) -> io::Result<()> {
    show::heading(
        rt,
        b"positions: n is accepted, n + 1 and the largest are not",
    )?;
    prefixes(
        rt,
        b"ababbababbabb",
        order,
        &[1, 2, 1, 2, 5, 1, 2, 1, 2, 5, 1, 2, 13],
    )?;
    suffixes(
        rt,
        b"ababbababbabb",
        order,
        &[13, 1, 3, 1, 1, 8, 1, 3, 1, 1, 3, 1, 1],
    )
}
