// Wanted reach tables: what no pattern has, 12, beside what is next to it and has one; over 256 entries, 11; short buffers, 8, which comes last.
use show::calls;
use std::io;

// An entry of 0, one past the end, the largest one, at the first place and at the last.
fn bounds(rt: &impl Print, order: &[u8]) -> io::Result<()> {
    show::heading(rt, b"no pattern: an entry of 0, or one past the end")?;
    calls::realise_array(rt, &[0], order, 2)?;
    calls::realise_array(rt, &[2], order, 2)?;
    calls::realise_array(rt, &[65535], order, 2)?;
    calls::realise_array(rt, &[0, 1], order, 2)?;
    calls::realise_array(rt, &[1, 0], order, 2)?;
    calls::realise_array(rt, &[3, 1], order, 2)?;
    calls::realise_array(rt, &[1, 2], order, 2)?;
    calls::realise_array(rt, &[65535, 1], order, 2)?;
    calls::realise_array(rt, &[1, 65535], order, 2)
}

// A stretch that crosses the one before it, at the start of a table and in the middle of a longer one; then the same with one of the two shorter or
// longer, so that they nest.
fn crossing(rt: &impl Print, order: &[u8]) -> io::Result<()> {
    show::heading(rt, b"no pattern: crossing stretches; then what nests")?;
    calls::realise_array(rt, &[2, 2, 1], order, 3)?;
    calls::realise_array(rt, &[6, 1, 2, 3, 1, 1], order, 6)?;
    calls::realise_array(rt, &[6, 1, 3, 1, 2, 1], order, 6)?;
    calls::realise_array(rt, &[3, 2, 1], order, 3)?;
    calls::realise_array(rt, &[6, 1, 2, 1, 1, 1], order, 6)?;
    calls::realise_array(rt, &[6, 1, 2, 1, 2, 1], order, 6)?;
    calls::realise_array(rt, &[6, 1, 4, 1, 2, 1], order, 6)
}

fn rooms(rt: &impl Print, wanted: &[u16], order: &[u8]) -> io::Result<()> {
    show::heading(rt, b"buffers: none, one short, exact, longer")?;
    calls::realise_array(rt, wanted, order, 0)?;
    calls::realise_array(rt, wanted, order, 5)?;
    calls::realise_array(rt, wanted, order, 6)?;
    calls::realise_array(rt, wanted, order, 8)
}

fn empty(rt: &impl Print, wanted: &[u16], order: &[u8]) -> io::Result<()> {
    show::heading(rt, b"no entries: the empty pattern, with any buffer")?;
    calls::realise_array(rt, wanted, order, 0)?;
    calls::realise_array(rt, wanted, order, 3)
}

fn several(rt: &impl Print, order: &[u8]) -> io::Result<()> {
    show::heading(rt, b"refusals that hold: 11 12 8; 11 12; 11 8; 11; 12 8; 8")?;
    calls::realise_array(rt, &[0; 257], order, 0)?;
    calls::realise_array(rt, &[0; 257], order, 257)?;
    calls::realise_array(rt, &[1; 257], order, 256)?;
    calls::realise_array(rt, &[1; 257], order, 257)?;
    calls::realise_array(rt, &[0; 256], order, 0)?;
    calls::realise_array(rt, &[1; 256], order, 0)
}

// Each table is that of a pattern with the most factors, or with one.
fn longest(rt: &impl Print, order: &[u8], falling: &mut [u16]) -> io::Result<()> {
    show::heading(
        rt,
        b"256 entries: 1 .. 1; 256 255 .. 1, a buffer one short, exact, longer; 65536 entries",
    )?;
    calls::realise_array(rt, &[1; 256], order, 256)?;
    let mut word = [b'a'; 256];
    word[255] = b'b';
    let _ = lyndon_tables::lyndon_array(&word, order, falling);
    calls::realise_array(rt, falling, order, 255)?;
    calls::realise_array(rt, falling, order, 256)?;
    calls::realise_array(rt, falling, order, 258)?;
    calls::realise_array(rt, &[1; 65536], order, 3)
}

pub(crate) fn run(rt: &impl Print, order: &[u8]) -> io::Result<()> {
    bounds(rt, order)?;
    crossing(rt, order)?;
    rooms(rt, &[6, 1, 4, 1, 2, 1], order)?;
    empty(rt, &[], order)?;
    several(rt, order)?;
    longest(rt, order, &mut [0; 256])
}
