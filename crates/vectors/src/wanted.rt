// Wanted reach tables that patterns have: those of the papers' worked examples, and the least ones. Which pattern is written is left free, so what is
// printed of it is its reach table, which is the wanted one.
use show::calls;
use std::io;

// Those of `sources.rt`: P10 and its reduction, P11.
fn examples(rt: &impl Print, order: &[u8]) -> io::Result<()> {
    show::heading(rt, b"wanted tables: P10 and its reduction, P11")?;
    calls::realise_array(rt, &[9, 1, 1, 6, 2, 1, 3, 1, 1], order, 9)?;
    calls::realise_array(rt, &[6, 1, 4, 1, 2, 1], order, 6)?;
    calls::realise_array(rt, &[13, 1, 3, 1, 1, 8, 1, 3, 1, 1, 3, 1, 1], order, 13)
}

// All tables of up to three entries that patterns have: 1, 1, 2 and 5 of them.
fn least(rt: &impl Print, order: &[u8]) -> io::Result<()> {
    show::heading(
        rt,
        b"all wanted tables of up to three entries that patterns have",
    )?;
    calls::realise_array(rt, &[], order, 0)?;
    calls::realise_array(rt, &[1], order, 1)?;
    calls::realise_array(rt, &[1, 1], order, 2)?;
    calls::realise_array(rt, &[2, 1], order, 2)?;
    calls::realise_array(rt, &[1, 1, 1], order, 3)?;
    calls::realise_array(rt, &[1, 2, 1], order, 3)?;
    calls::realise_array(rt, &[2, 1, 1], order, 3)?;
    calls::realise_array(rt, &[3, 1, 1], order, 3)?;
    calls::realise_array(rt, &[3, 2, 1], order, 3)
}

pub(crate) fn run(rt: &impl Print, order: &[u8]) -> io::Result<()> {
    examples(rt, order)?;
    least(rt, order)
}
