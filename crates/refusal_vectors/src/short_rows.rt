// Refusal 8, for each call that fills a row: a row of 0 entries, one entry too short, exact, and longer. A short row is left as it was, a longer
// one keeps its entries past the result.
use show::calls;
use std::io;

fn factor(rt: &impl Print, s: &[u8], order: &[u8]) -> io::Result<()> {
    calls::factor(rt, s, order, 0)?;
    calls::factor(rt, s, order, 8)?;
    calls::factor(rt, s, order, 9)?;
    calls::factor(rt, s, order, 11)
}

// P6's edited pattern: of its four longest words two are equal, and each start is listed.
fn longest_words(rt: &impl Print, s: &[u8], order: &[u8]) -> io::Result<()> {
    calls::longest_words(rt, s, order, 0)?;
    calls::longest_words(rt, s, order, 3)?;
    calls::longest_words(rt, s, order, 4)?;
    calls::longest_words(rt, s, order, 6)?;
    calls::longest_word(rt, s, order)
}

fn tables(rt: &impl Print, s: &[u8], order: &[u8]) -> io::Result<()> {
    calls::lyndon_array(rt, s, order, 0)?;
    calls::lyndon_array(rt, s, order, 12)?;
    calls::lyndon_array(rt, s, order, 13)?;
    calls::lyndon_array(rt, s, order, 15)?;
    calls::last_factors(rt, s, order, 0)?;
    calls::last_factors(rt, s, order, 12)?;
    calls::last_factors(rt, s, order, 13)?;
    calls::last_factors(rt, s, order, 15)
}

fn lyndon_tree(rt: &impl Print, w: &[u8], order: &[u8]) -> io::Result<()> {
    calls::lyndon_tree(rt, w, order, 0)?;
    calls::lyndon_tree(rt, w, order, 17)?;
    calls::lyndon_tree(rt, w, order, 18)?;
    calls::lyndon_tree(rt, w, order, 20)
}

fn parts(
    rt: &impl Print,
    s: &[u8],
    order: &[u8],
    last_factors: &[u16],
    lyndon_array: &[u16],
) -> io::Result<()> {
    calls::factor_prefix(rt, s, order, last_factors, 11, 0)?;
    calls::factor_prefix(rt, s, order, last_factors, 11, 5)?;
    calls::factor_prefix(rt, s, order, last_factors, 11, 6)?;
    calls::factor_prefix(rt, s, order, last_factors, 11, 8)?;
    calls::factor_suffix(rt, s, order, lyndon_array, 1, 0)?;
    calls::factor_suffix(rt, s, order, lyndon_array, 1, 8)?;
    calls::factor_suffix(rt, s, order, lyndon_array, 1, 9)?;
    calls::factor_suffix(rt, s, order, lyndon_array, 1, 11)
}

// The room is held against the result, not against what the longest result of that length would need.
fn measured(rt: &impl Print, order: &[u8]) -> io::Result<()> {
    calls::factor(rt, b"aaaaaaaa", order, 3)?;
    calls::longest_words(rt, b"aaaaaaab", order, 1)
}

pub(crate) fn run(rt: &impl Print, order: &[u8]) -> io::Result<()> {
    show::heading(rt, b"rows: none, one short, exact, longer")?;
    factor(rt, b"acbabcabcabac", order)?;
    longest_words(rt, b"acbabcabcabaac", order)?;
    tables(rt, b"ababbababbabb", order)?;
    lyndon_tree(rt, b"aabab", order)?;
    parts(
        rt,
        b"ababbababbabb",
        order,
        &[1, 2, 1, 2, 5, 1, 2, 1, 2, 5, 1, 2, 13],
        &[13, 1, 3, 1, 1, 8, 1, 3, 1, 1, 3, 1, 1],
    )?;
    measured(rt, order)
}
