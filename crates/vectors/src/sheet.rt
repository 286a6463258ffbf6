// What the papers say of short patterns: the mark, Lyndon words, the order of bytes, those lines of the trainer's sheet that ask these calls, and
// the trigger words of all words of six letters.
use show::calls;
use std::io;

// `baab` has mark 1; `abab` is refused, with mark 0, and is no Lyndon word.
fn marks(rt: &impl Print, order: &[u8]) -> io::Result<()> {
    show::heading(rt, b"marks")?;
    calls::least_rotation(rt, b"baab", order)?;
    calls::least_rotation(rt, b"abab", order)?;
    calls::is_lyndon(rt, b"abab", order)
}

// Bytes compare as unsigned numbers: 7F 80 is one Lyndon word, 80 7F is two.
fn unsigned(rt: &impl Print, order: &[u8]) -> io::Result<()> {
    show::heading(rt, b"unsigned bytes")?;
    calls::factor(rt, b"\x7F\x80", order, 6)?;
    calls::factor(rt, b"\x80\x7F", order, 6)?;
    calls::is_lyndon(rt, b"\x7F\x80", order)?;
    calls::is_lyndon(rt, b"\x80\x7F", order)?;
    calls::least_rotation(rt, b"\x80\x7F", order)?;
    calls::lyndon_array(rt, b"\x7F\x80\x7F", order, 3)?;
    calls::last_factors(rt, b"\x7F\x80\x7F", order, 3)
}

fn short(rt: &impl Print, order: &[u8]) -> io::Result<()> {
    show::heading(rt, b"P2 and P3")?;
    calls::factor(rt, b"a", order, 3)?;
    calls::longest_words(rt, b"a", order, 2)?;
    calls::is_lyndon(rt, b"a", order)?;
    calls::factor(rt, b"aa", order, 3)?;
    calls::is_lyndon(rt, b"aa", order)?;
    calls::longest_words(rt, b"aa", order, 2)?;
    calls::longest_word(rt, b"aa", order)
}

// P4, which is T of source 004's examples 4 and 15: "Since LF_T = acb, (abc)^2, abac, the longest Lyndon substring of T is abac."
fn sheet(rt: &impl Print, order: &[u8]) -> io::Result<()> {
    show::heading(rt, b"P4")?;
    calls::factor(rt, b"acbabcabcabac", order, 9)?;
    calls::longest_words(rt, b"acbabcabcabac", order, 1)?;
    calls::longest_word(rt, b"acbabcabcabac", order)?;
    show::heading(rt, b"P14")?;
    calls::lyndon_tree(rt, b"aabab", order, 18)?;
    calls::lyndon_tree(rt, b"a", order, 2)
}

// The windows of this word are all words of six letters a and b, each once.
fn triggers(rt: &impl Print, order: &[u8]) -> io::Result<()> {
    show::heading(rt, b"trigger words of all words of six letters a and b")?;
    let letters = b"aaaaaabaaaabbaaababaaabbbaabaababbaabbabaabbbbabababbbabbabbbbbbaaaaa";
    for window in letters.windows(6) {
        calls::longest_word(rt, window, order)?;
    }
    Ok(())
}

pub(crate) fn run(rt: &impl Print, order: &[u8]) -> io::Result<()> {
    marks(rt, order)?;
    unsigned(rt, order)?;
    short(rt, order)?;
    sheet(rt, order)?;
    triggers(rt, order)
}
