// Factors of a prefix and of a suffix by the tables under the order, wanted tables, and listings.
use show::calls;
use show::calls::OLD;
use std::io;

fn prefixes(rt: &impl Print, s: &[u8], order: &[u8], table: &mut [u16]) -> io::Result<()> {
    let _ = lyndon_tables::last_factors(s, order, table);
    calls::factor_prefix(rt, s, order, table, 0, 0)?;
    calls::factor_prefix(rt, s, order, table, 5, 12)?;
    calls::factor_prefix(rt, s, order, table, 8, 15)?;
    calls::factor_prefix(rt, s, order, table, 13, 12)
}

fn suffixes(rt: &impl Print, s: &[u8], order: &[u8], table: &mut [u16]) -> io::Result<()> {
    let _ = lyndon_tables::lyndon_array(s, order, table);
    calls::factor_suffix(rt, s, order, table, 0, 12)?;
    calls::factor_suffix(rt, s, order, table, 4, 15)?;
    calls::factor_suffix(rt, s, order, table, 9, 9)?;
    calls::factor_suffix(rt, s, order, table, 13, 0)
}

fn both(rt: &impl Print, s: &[u8], order: &[u8], table: &mut [u16]) -> io::Result<()> {
    let _ = lyndon_tables::last_factors(s, order, table);
    calls::factor_prefix(rt, s, order, table, 25, 6)?;
    let _ = lyndon_tables::lyndon_array(s, order, table);
    calls::factor_suffix(rt, s, order, table, 0, 6)
}

// P10, its reduction and P11: any table that a pattern has, one has under every order.
fn wanted(rt: &impl Print, order: &[u8]) -> io::Result<()> {
    calls::realise_array(rt, &[9, 1, 1, 6, 2, 1, 3, 1, 1], order, 9)?;
    calls::realise_array(rt, &[6, 1, 4, 1, 2, 1], order, 6)?;
    calls::realise_array(rt, &[13, 1, 3, 1, 1, 8, 1, 3, 1, 1, 3, 1, 1], order, 14)?;
    calls::realise_array(rt, &[2, 2, 1], order, 3)
}

// The words and their shared lengths are of the bytes.
fn listings(rt: &impl Print, order: &[u8]) -> io::Result<()> {
    calls::write_listing(rt, b"ab", order, 56)?;
    calls::write_listing(rt, b"ba", order, 56)?;
    calls::write_listing(rt, b"acbabcabcabac", order, 100)?;
    calls::write_listing(rt, b"\x00\x01\x01\x00\x02\x03\x01\x02\x02", order, 100)
}

pub(crate) fn run(rt: &impl Print, order: &[u8]) -> io::Result<()> {
    prefixes(rt, b"acbabcabcabac", order, &mut [OLD; 13])?;
    suffixes(rt, b"acbabcabcabac", order, &mut [OLD; 13])?;
    both(rt, b"baaaaaaaacccccccccccccccc", order, &mut [OLD; 25])?;
    wanted(rt, order)?;
    listings(rt, order)
}
