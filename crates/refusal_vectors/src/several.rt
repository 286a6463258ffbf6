// Where several refusals hold, the smallest number is answered, and nothing is written. A heading names those that hold, case by case. The call
// that tests 11 and 12 before 8 is in `wanted.rt`; 13, which comes before all of them, is in `order_vectors`.
use show::calls;
use std::io;

fn last_factors(rt: &impl Print, s: &[u8], order: &[u8]) -> io::Result<()> {
    show::heading(rt, b"refusals that hold: 2 5 8; 2 5; 2 8; 5 8; 8")?;
    calls::factor_prefix(rt, s, order, &[], 5, 2)?;
    calls::factor_prefix(rt, s, order, &[1, 2, 1, 1], 5, 3)?;
    calls::factor_prefix(rt, s, order, &[1, 2, 1, 2], 5, 2)?;
    calls::factor_prefix(rt, s, order, &[1, 2, 1, 1], 4, 2)?;
    calls::factor_prefix(rt, s, order, &[1, 2, 1, 2], 4, 2)
}

fn lyndon_array(rt: &impl Print, s: &[u8], order: &[u8]) -> io::Result<()> {
    show::heading(rt, b"refusals that hold: 2 5 8; 2 5; 2 8; 5 8; 8")?;
    calls::factor_suffix(rt, s, order, &[], 5, 2)?;
    calls::factor_suffix(rt, s, order, &[4, 1, 2, 1], 5, 3)?;
    calls::factor_suffix(rt, s, order, &[2, 1, 2, 1], 5, 2)?;
    calls::factor_suffix(rt, s, order, &[4, 1, 2, 1], 0, 2)?;
    calls::factor_suffix(rt, s, order, &[2, 1, 2, 1], 0, 2)
}

// 16,385 bytes, tables and rows of 0 entries, the largest position.
fn long_pattern(rt: &impl Print, s: &[u8], order: &[u8]) -> io::Result<()> {
    show::heading(rt, b"refusals that hold: 1 8")?;
    calls::factor(rt, s, order, 0)?;
    calls::lyndon_array(rt, s, order, 0)?;
    calls::last_factors(rt, s, order, 0)?;
    calls::longest_words(rt, s, order, 0)?;
    show::heading(rt, b"refusals that hold: 1 10")?;
    calls::least_rotation(rt, s, order)?;
    show::heading(rt, b"refusals that hold: 1 2 5 8")?;
    calls::factor_prefix(rt, s, order, &[], usize::MAX, 0)?;
    calls::factor_suffix(rt, s, order, &[], usize::MAX, 0)
}

fn trees(rt: &impl Print, order: &[u8]) -> io::Result<()> {
    show::heading(rt, b"refusals that hold: 6 7 8; 7 8; 7; 7")?;
    calls::lyndon_tree(rt, &[b'a'; 257], order, 0)?;
    calls::lyndon_tree(rt, &[b'a'; 256], order, 0)?;
    calls::lyndon_tree(rt, b"abab", order, 14)?;
    calls::lyndon_tree(rt, b"ba", order, 6)
}

pub(crate) fn run(rt: &impl Print, order: &[u8]) -> io::Result<()> {
    last_factors(rt, b"abab", order)?;
    lyndon_array(rt, b"abab", order)?;
    long_pattern(rt, &[b'a'; 16385], order)?;
    trees(rt, order)
}
