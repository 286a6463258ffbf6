// The empty pattern, P1: no factors, longest 0, mark 0. Empty tables and rows are long enough for it, and longer ones are left as they were.
use show::calls;
use show::calls::OLD;
use std::io;

fn answers(rt: &impl Print, s: &[u8], order: &[u8]) -> io::Result<()> {
    calls::longest_word(rt, s, order)?;
    calls::is_lyndon(rt, s, order)?;
    calls::least_rotation(rt, s, order)
}

fn fills(rt: &impl Print, s: &[u8], order: &[u8], room: usize) -> io::Result<()> {
    calls::factor(rt, s, order, room)?;
    calls::lyndon_array(rt, s, order, room)?;
    calls::last_factors(rt, s, order, room)?;
    calls::longest_words(rt, s, order, room)?;
    calls::lyndon_tree(rt, s, order, room)
}

fn parts(rt: &impl Print, s: &[u8], order: &[u8], table: &[u16], room: usize) -> io::Result<()> {
    calls::factor_prefix(rt, s, order, table, 0, room)?;
    calls::factor_suffix(rt, s, order, table, 0, room)?;
    calls::factor_prefix(rt, s, order, table, 1, room)?;
    calls::factor_suffix(rt, s, order, table, 1, room)
}

pub(crate) fn run(rt: &impl Print, order: &[u8]) -> io::Result<()> {
    show::heading(rt, b"the empty pattern (P1)")?;
    answers(rt, b"", order)?;
    fills(rt, b"", order, 0)?;
    fills(rt, b"", order, 2)?;
    parts(rt, b"", order, &[], 0)?;
    parts(rt, b"", order, &[OLD; 2], 2)
}
