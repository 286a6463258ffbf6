// The answer to edits: the trainer's sheet, both ends, edges of length, refusals of which later ones hold too, wrong entries of the tables,
// tables stored under the limit of before, and positions at the largest `usize`.
ghost use Rattle.std.specs.Prelude.{◌≤◌, length};

use show::edits::{edit, edit_with};
use show::{calls, changed};
use std::io;

// The tables of acbabcabcabac.
const REACH: [u16; 13] = [3, 1, 1, 3, 2, 1, 3, 2, 1, 4, 1, 2, 1];

const LAST: [u16; 13] = [1, 2, 3, 1, 2, 3, 1, 2, 3, 1, 2, 1, 4];

fn sheet(rt: &impl Print, order: &[u8]) -> io::Result<()> {
    show::heading(rt, b"P5 to P9, P12 and P13")?;
    edit(rt, b"acbabcabcabac", order, 5, 6, b"b", 1, 1)?;
    edit(rt, b"acbabcabcabac", order, 11, 11, b"a", 2, 4)?;
    edit(rt, b"acbabcabcabac", order, 9, 10, b"", 1, 1)?;
    edit(rt, b"acbabcabcabac", order, 1, 3, b"bac", 1, 1)?;
    edit(rt, b"acbabcabcabac", order, 7, 10, b"", 2, 2)?;
    edit(rt, b"aa", order, 1, 1, b"a", 1, 3)?;
    edit(rt, b"aba", order, 3, 3, b"c", 1, 1)
}

fn ends(rt: &impl Print, order: &[u8]) -> io::Result<()> {
    show::heading(
        rt,
        b"both ends, an empty pattern, an empty block, the whole pattern replaced",
    )?;
    edit(rt, b"acbabcabcabac", order, 0, 0, b"a", 2, 2)?;
    edit(rt, b"acbabcabcabac", order, 13, 13, b"b", 2, 2)?;
    edit(rt, b"", order, 0, 0, b"ab", 1, 1)?;
    edit(rt, b"", order, 0, 0, b"", 0, 0)?;
    edit(rt, b"abc", order, 1, 1, b"", 1, 1)?;
    edit(rt, b"abc", order, 0, 3, b"ba", 2, 2)?;
    edit(rt, b"abc", order, 0, 3, b"", 0, 0)
}

fn places(rt: &impl Print, order: &[u8]) -> io::Result<()> {
    show::heading(rt, b"refusals, with later ones true")?;
    edit(rt, &[b'a'; 16385], order, 2, 1, &[b'b'; 257], 0, 0)?;
    edit(rt, b"abc", order, 2, 1, &[b'b'; 257], 0, 0)?;
    edit(rt, b"abc", order, usize::MAX, usize::MAX, b"", 0, 0)?;
    edit(rt, b"abc", order, 0, usize::MAX, b"", 0, 0)?;
    edit(rt, b"abc", order, 0, 4, b"", 0, 0)
}

fn sizes(rt: &impl Print, order: &[u8]) -> io::Result<()> {
    edit(rt, &[b'a'; 16288], order, 0, 0, &[b'b'; 257], 0, 0)?;
    edit_with(rt, &[b'a'; 16288], order, &[], &[], 0, 0, &[b'b'; 97], 0, 0)?;
    edit_with(rt, b"abc", order, &[], &[], 0, 0, b"b", 0, 0)?;
    edit(rt, b"acbabcabcabac", order, 11, 11, b"a", 1, 4)?;
    edit(rt, b"acbabcabcabac", order, 11, 11, b"a", 2, 3)
}

fn longest(rt: &impl Print, order: &[u8]) -> io::Result<()> {
    show::heading(rt, b"an edited length of 16384, a block of 256")?;
    edit(rt, &[b'a'; 16128], order, 16128, 16128, &[b'b'; 256], 1, 1)?;
    edit(rt, &[b'a'; 16129], order, 16129, 16129, &[b'b'; 256], 1, 1)
}

// An edit with these tables, and no room.
fn asked(rt: &impl Print, order: &[u8], array: &[u16], last: &[u16]) -> io::Result<()> {
    edit_with(rt, b"acbabcabcabac", order, array, last, 5, 6, b"b", 0, 0)
}

fn tables(rt: &impl Print, order: &[u8]) -> io::Result<()> {
    show::heading(
        rt,
        b"tables with a wrong entry: the first, a middle one, the last; right ones",
    )?;
    asked(rt, order, &changed(REACH, 0, 4), &LAST)?;
    asked(rt, order, &REACH, &changed(LAST, 0, 2))?;
    asked(rt, order, &changed(REACH, 6, 4), &LAST)?;
    asked(rt, order, &REACH, &changed(LAST, 6, 2))?;
    asked(rt, order, &changed(REACH, 12, 2), &LAST)?;
    asked(rt, order, &REACH, &changed(LAST, 12, 5))?;
    edit_with(rt, b"acbabcabcabac", order, &REACH, &LAST, 5, 6, b"b", 1, 1)
}

// n n-1 .. 1, the Lyndon array of a .. a b.
fn falling(table: &mut [u16])
    requires { length table.old ≤ 4096 }
{
    let n = table.len();
    for (i, entry) in table.iter_mut().enumerate() {
        *entry = (n - i) as u16;
    }
}

// Tables that were stored when 4,096 bytes were the limit, here of a .. a b, the longest there was: 4096 4095 .. 1, and 1 1 .. 1 4096.
fn stored(rt: &impl Print, order: &[u8]) -> io::Result<()> {
    show::heading(rt, b"stored tables of 4096 bytes: a .. a b")?;
    let mut pattern = [b'a'; 4096];
    pattern[4095] = b'b';
    let mut array = [0; 4096];
    falling(&mut array);
    let mut last = [1; 4096];
    last[4095] = 4096;
    edit_with(rt, &pattern, order, &array, &last, 2048, 2049, b"b", 1, 1)?;
    calls::factor_prefix(rt, &pattern, order, &last, 4096, 3)?;
    calls::factor_suffix(rt, &pattern, order, &array, 4000, 3)
}

pub(crate) fn run(rt: &impl Print, order: &[u8]) -> io::Result<()> {
    sheet(rt, order)?;
    ends(rt, order)?;
    // a function with many arrays of its own takes long to check, so the refusals have three
    places(rt, order)?;
    sizes(rt, order)?;
    longest(rt, order)?;
    tables(rt, order)?;
    stored(rt, order)
}
