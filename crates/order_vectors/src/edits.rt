// The answer to edits, with the tables under the order: those of the trainer's sheet, both ends, and words that begin alike.
use show::edits::edit;
use std::io;

// P5 to P9.
fn sheet(rt: &impl Print, s: &[u8], order: &[u8]) -> io::Result<()> {
    edit(rt, s, order, 5, 6, b"b", 2, 2)?;
    edit(rt, s, order, 11, 11, b"a", 2, 2)?;
    edit(rt, s, order, 9, 10, b"", 2, 2)?;
    edit(rt, s, order, 1, 3, b"bac", 2, 2)?;
    edit(rt, s, order, 7, 10, b"", 2, 2)
}

fn ends(rt: &impl Print, s: &[u8], order: &[u8]) -> io::Result<()> {
    edit(rt, s, order, 0, 0, b"b", 2, 2)?;
    edit(rt, s, order, 13, 13, b"c", 2, 2)?;
    edit(rt, s, order, 0, 13, b"", 0, 0)
}

// P12 and P13.
fn short(rt: &impl Print, order: &[u8]) -> io::Result<()> {
    edit(rt, b"aa", order, 1, 1, b"a", 1, 3)?;
    edit(rt, b"aba", order, 3, 3, b"c", 1, 2)
}

// A first difference after more than sixteen equal bytes.
fn far(rt: &impl Print, s: &[u8], order: &[u8]) -> io::Result<()> {
    edit(rt, s, order, 39, 40, b"c", 1, 2)?;
    edit(rt, s, order, 19, 20, b"c", 1, 2)
}

pub(crate) fn run(rt: &impl Print, order: &[u8]) -> io::Result<()> {
    sheet(rt, b"acbabcabcabac", order)?;
    ends(rt, b"acbabcabcabac", order)?;
    short(rt, order)?;
    far(rt, b"aaaaaaaaaaaaaaaaaaabaaaaaaaaaaaaaaaaaaab", order)
}
