// Refusal 10, of the phase mark alone: shorter words repeated two or more times, and patterns next to them, which are not.
use show::calls;
use std::io;

fn refused(rt: &impl Print, order: &[u8]) -> io::Result<()> {
    show::heading(rt, b"a shorter word repeated")?;
    calls::least_rotation(rt, b"aa", order)?;
    calls::least_rotation(rt, b"aaa", order)?;
    calls::least_rotation(rt, b"abab", order)?;
    calls::least_rotation(rt, b"baba", order)?;
    calls::least_rotation(rt, b"abcabcabc", order)?;
    calls::least_rotation(rt, b"baabaabaabaabaa", order)?;
    calls::least_rotation(rt, b"\x80\x7F\x80\x7F", order)
}

fn accepted(rt: &impl Print, order: &[u8]) -> io::Result<()> {
    show::heading(rt, b"no shorter word repeated")?;
    calls::least_rotation(rt, b"a", order)?;
    calls::least_rotation(rt, b"ab", order)?;
    calls::least_rotation(rt, b"abba", order)?;
    calls::least_rotation(rt, b"ababa", order)?;
    calls::least_rotation(rt, b"abcabcab", order)?;
    calls::least_rotation(rt, b"babaabab", order)?;
    calls::least_rotation(rt, b"bbabbabbabbabab", order)
}

// a^8191 b twice, and with its last byte larger; a^5460 b three times.
fn long(rt: &impl Print, order: &[u8]) -> io::Result<()> {
    show::heading(
        rt,
        b"16384 bytes: equal halves, and with the last byte larger; 16383 bytes: equal thirds",
    )?;
    let mut halves = [b'a'; 16384];
    halves[8191] = b'b';
    halves[16383] = b'b';
    calls::least_rotation(rt, &halves, order)?;
    halves[16383] = b'c';
    calls::least_rotation(rt, &halves, order)?;
    let mut thirds = [b'a'; 16383];
    thirds[5460] = b'b';
    thirds[10921] = b'b';
    thirds[16382] = b'b';
    calls::least_rotation(rt, &thirds, order)
}

pub(crate) fn run(rt: &impl Print, order: &[u8]) -> io::Result<()> {
    refused(rt, order)?;
    accepted(rt, order)?;
    long(rt, order)
}
