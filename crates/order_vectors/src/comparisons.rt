// Two strings compared: the shared length is that of the bytes, which is smaller is told by the ranks, and a beginning is smaller in every order.
use show::calls;
use std::io;

fn words(rt: &impl Print, order: &[u8]) -> io::Result<()> {
    calls::compare(rt, b"acb", b"abc", order)?;
    calls::compare(rt, b"abc", b"abac", order)?;
    calls::compare(rt, b"abba", b"abbb", order)?;
    calls::compare(rt, &[128, 0], &[127, 255], order)?;
    calls::compare(
        rt,
        b"aaaaaaaaaaaaaaaaaaabcaa",
        b"aaaaaaaaaaaaaaaaaaabbcc",
        order,
    )
}

fn beginnings(rt: &impl Print, order: &[u8]) -> io::Result<()> {
    calls::compare(rt, b"", b"a", order)?;
    calls::compare(rt, b"abab", b"abab", order)?;
    calls::compare(rt, b"ab", b"abab", order)?;
    calls::compare(rt, b"abab", b"ab", order)
}

pub(crate) fn run(rt: &impl Print, order: &[u8]) -> io::Result<()> {
    words(rt, order)?;
    beginnings(rt, order)
}
