// Two strings compared: neighbouring words of a listing, the same string, one that the other begins with, and a first difference at the first
// byte, in the middle and at the last.
use show::calls;
use std::io;

// The words of acbabcabcabac, in their order.
fn words(rt: &impl Print, order: &[u8]) -> io::Result<()> {
    show::heading(
        rt,
        b"compared: the words of acbabcabcabac, each with the next",
    )?;
    calls::compare(rt, b"acb", b"abc", order)?;
    calls::compare(rt, b"abc", b"abac", order)
}

fn beginnings(rt: &impl Print, order: &[u8]) -> io::Result<()> {
    show::heading(
        rt,
        b"compared: the same string, and a beginning of the other",
    )?;
    calls::compare(rt, b"", b"", order)?;
    calls::compare(rt, b"", b"a", order)?;
    calls::compare(rt, b"a", b"", order)?;
    calls::compare(rt, b"abab", b"abab", order)?;
    calls::compare(rt, b"ab", b"abab", order)?;
    calls::compare(rt, b"abab", b"ab", order)
}

fn differences(rt: &impl Print, order: &[u8]) -> io::Result<()> {
    show::heading(
        rt,
        b"compared: the first difference at the first byte, in the middle, at the last byte; bytes are unsigned",
    )?;
    calls::compare(rt, b"baaa", b"aaaa", order)?;
    calls::compare(rt, b"abaa", b"abba", order)?;
    calls::compare(rt, b"abbb", b"abba", order)?;
    calls::compare(rt, b"b", b"abba", order)?;
    calls::compare(rt, &[0, 127], &[0, 128], order)?;
    calls::compare(rt, &[128, 0], &[127, 255], order)
}

pub(crate) fn run(rt: &impl Print, order: &[u8]) -> io::Result<()> {
    words(rt, order)?;
    beginnings(rt, order)?;
    differences(rt, order)
}
