// Definite length blocks: every header, blocks cut short, bytes before and behind one, line feeds, what is no digit, the limit, and patterns
// written as blocks and read again. A long block is made of `a`s; the digest tells its bytes apart.
ghost use Rattle.std.specs.Prelude.{◌≡◌, ◌≤◌, ◌<◌, length};

use show::calls;
use show::calls::{BLANK, BUFFER};
use std::io;

// The longest block that is read here: a header of nine digits, 16,385 bytes, and two bytes behind them.
const SPACE: usize = 16398;

// Reads each of the blocks, which `|` parts: a function of many calls with a text each takes long to check.
fn each(rt: &impl Print, heading: &[u8], blocks: &[u8]) -> io::Result<()> {
    show::heading(rt, heading)?;
    for block in blocks.split(|&b| b == b'|') {
        calls::read_block(rt, block)?;
    }
    Ok(())
}

fn headers(rt: &impl Print) -> io::Result<()> {
    each(
        rt,
        b"blocks: one to nine digits give the count",
        b"#13abc|#203abc|#3003abc|#40003abc|#500003abc|#6000003abc|#70000003abc|#800000003abc|#9000000003abc|#212abcdefghijkl",
    )?;
    each(
        rt,
        b"blocks: no header, the indefinite form, what is next to the digits",
        b"|#|13abc|#0|#0\n|#0abc\n|#a|#a3abc|#/|#/3abc|#:|#:0000000003abc|#\xB13abc|\xA313abc",
    )?;
    each(
        rt,
        b"blocks: what is no digit in the count",
        b"#1+a|#1-a|#1aa|#1/a|#1:abcdefghij|#1\xB1a|#2 1a|#2-1a|#2+1a|#21 a|#2\n1a|#31,0abcdefghij",
    )
}

fn lengths(rt: &impl Print) -> io::Result<()> {
    each(
        rt,
        b"blocks: cut short",
        b"#1|#2|#21|#9|#900000000|#13|#13ab|#210abc|#516384abc|#516385abc|#9000016385abc|#9999999999abc",
    )?;
    each(
        rt,
        b"blocks: bytes before and behind",
        b" #13abc|\n#13abc|##13abc|#13abc\n|#13abc\n\n|#13abc\r|#13abc\r\n|#13abc\nd|#13abcd|#13abc\x00|#13abc#13abc",
    )?;
    each(
        rt,
        b"blocks: no bytes, and a line feed among the bytes",
        b"#10|#10\n|#10\n\n|#10a|#9000000000|#9000000000\n|#11\n|#11\n\n|#11\n\n\n|#13ab\n|#15\x00\xFF\r\n#",
    )
}

// The header, `a`s up to a place, and what ends the block.
fn long(rt: &impl Print, header: &[u8], place: usize, end: &[u8]) -> io::Result<()>
    requires { (length header.now ≤ 11) × (place ≤ 16396) × (length end.now ≤ 2) }
{
    let mut space = [b'a'; SPACE];
    let size = place + end.len();
    space[..header.len()].copy_from_slice(header);
    space[place..size].copy_from_slice(end);
    calls::read_block(rt, &space[..size])
}

// A block whose bytes should end at this place: one byte short, exact, four times with bytes behind them, and with a line feed as the last byte.
fn ends(rt: &impl Print, header: &[u8], place: usize) -> io::Result<()>
    requires { (length header.now ≤ 11) × (0 < place) × (place ≤ 16396) }
{
    long(rt, header, place - 1, b"")?;
    long(rt, header, place, b"")?;
    long(rt, header, place, b"\n")?;
    long(rt, header, place, b"b")?;
    long(rt, header, place, b"\nb")?;
    long(rt, header, place, b"\n\n")?;
    long(rt, header, place - 1, b"\n")
}

fn limit(rt: &impl Print) -> io::Result<()> {
    show::heading(
        rt,
        b"blocks of 16384 and 16385 bytes: one short, exact, bytes behind them, a line feed as the last",
    )?;
    ends(rt, b"#516384", 16391)?;
    ends(rt, b"#9000016384", 16395)?;
    ends(rt, b"#516385", 16392)?;
    ends(rt, b"#9000016385", 16396)
}

// The pattern written into a buffer of one byte too few, of the block's size and of two more, and the block read again.
fn write(rt: &impl Print, pattern: &[u8], size: usize) -> io::Result<()>
    requires { (0 < size) × (size ≤ 16391) }
{
    calls::write_block(rt, pattern, size - 1)?;
    calls::write_block(rt, pattern, size)?;
    calls::write_block(rt, pattern, size + 2)?;
    let mut space = [BLANK; BUFFER];
    let count = block::write_block(pattern, &mut space).unwrap_or(0);
    calls::read_block(rt, &space[..count.min(BUFFER)])
}

fn written(rt: &impl Print) -> io::Result<()> {
    show::heading(
        rt,
        b"blocks written: a buffer one short, exact, longer; the block read again",
    )?;
    write(rt, b"", 3)?;
    write(rt, b"a", 4)?;
    write(rt, b"abcdefghi", 12)?;
    write(rt, b"abcdefghij", 14)?;
    write(rt, b"#10\n", 7)?;
    write(rt, b"\x00\xFF\r\n", 7)
}

// Counts that are next to a digit more, and the limit.
fn sizes(rt: &impl Print, pattern: &[u8]) -> io::Result<()>
    requires { length pattern.now ≡ 16385 }
{
    write(rt, &pattern[0..99], 103)?;
    write(rt, &pattern[0..100], 105)?;
    write(rt, &pattern[0..999], 1004)?;
    write(rt, &pattern[0..1000], 1006)?;
    write(rt, &pattern[0..9999], 10005)?;
    write(rt, &pattern[0..10000], 10007)?;
    write(rt, &pattern[0..16384], 16391)?;
    calls::write_block(rt, pattern, 16392)?;
    calls::write_block(rt, pattern, 16391)?;
    calls::write_block(rt, pattern, 0)
}

pub(crate) fn run(rt: &impl Print) -> io::Result<()> {
    headers(rt)?;
    lengths(rt)?;
    limit(rt)?;
    written(rt)?;
    sizes(rt, &[b'a'; 16385])
}
