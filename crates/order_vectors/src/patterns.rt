// Factors, tables, longest words and mark of a pattern, and the tree of a word.
use show::calls;
use std::io;

fn each(rt: &impl Print, s: &[u8], order: &[u8], room: usize) -> io::Result<()> {
    calls::factor(rt, s, order, room)?;
    calls::lyndon_array(rt, s, order, s.len())?;
    calls::last_factors(rt, s, order, s.len())?;
    calls::longest_words(rt, s, order, room)?;
    calls::longest_word(rt, s, order)?;
    calls::longest_word_place(rt, s, order)?;
    calls::is_lyndon(rt, s, order)?;
    calls::least_rotation(rt, s, order)
}

// The trap about signed bytes is about ranks: in each of these orders 80 7F is one Lyndon word, and 7F 80 is two.
fn short(rt: &impl Print, order: &[u8]) -> io::Result<()> {
    each(rt, b"", order, 2)?;
    each(rt, b"aa", order, 3)?;
    each(rt, b"baab", order, 6)?;
    each(rt, b"\x7F\x80", order, 6)?;
    each(rt, b"\x80\x7F", order, 6)
}

// Refusal 8 is about the result under the order: these rows and this buffer are long enough for the one word of byte order.
fn measured(rt: &impl Print, order: &[u8]) -> io::Result<()> {
    calls::factor(rt, b"\x7F\x80", order, 3)?;
    calls::longest_words(rt, b"\x7F\x80", order, 1)?;
    calls::write_listing(rt, b"\x7F\x80", order, 46)
}

// P4, P10 and P11.
fn sheet(rt: &impl Print, order: &[u8]) -> io::Result<()> {
    each(rt, b"acbabcabcabac", order, 12)?;
    each(rt, b"\x00\x01\x01\x00\x02\x03\x01\x02\x02", order, 12)?;
    each(rt, b"ababbababbabb", order, 15)
}

// A word that begins with b and grows or ends by more than sixteen bytes c, words that differ only behind so many equal bytes, and all words of
// six letters.
fn long(rt: &impl Print, order: &[u8]) -> io::Result<()> {
    each(rt, b"baaaaaaaacccccccccccccccccc", order, 6)?;
    each(
        rt,
        b"aaaaaaaaaaaaaaaaaaabaaaaaaaaaaaaaaaaaaacaaaaaaaaaaaaaaaaaaab",
        order,
        9,
    )?;
    each(
        rt,
        b"aaaaaabaaaabbaaababaaabbbaabaababbaabbabaabbbbabababbbabbabbbbbbaaaaa",
        order,
        18,
    )
}

// P14 with its letters changed too: it is a Lyndon word where b is before a.
fn trees(rt: &impl Print, order: &[u8]) -> io::Result<()> {
    calls::lyndon_tree(rt, b"aabab", order, 18)?;
    calls::lyndon_tree(rt, b"bbaba", order, 18)?;
    calls::lyndon_tree(rt, b"cbcabcaa", order, 30)?;
    calls::lyndon_tree(rt, b"bcbaca", order, 22)?;
    calls::lyndon_tree(rt, b"acabcb", order, 22)
}

pub(crate) fn run(rt: &impl Print, order: &[u8]) -> io::Result<()> {
    short(rt, order)?;
    measured(rt, order)?;
    sheet(rt, order)?;
    long(rt, order)?;
    trees(rt, order)
}
