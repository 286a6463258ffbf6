// The examples that the source documents print, as far as they ask these calls. The sources count positions from 1, the calls from 0.
use show::calls;
use show::calls::OLD;
use std::io;

// Source 001, section 9.4, on x = 011023122 and its reduction 021534: "L'_x[1..9] = 9, 2, 3, 9, 6, 6, 9, 8, 9" and "L'_tau(x)[1..6] =
// 6, 2, 6, 4, 6, 6", each the last place of the longest Lyndon substring at i, counted from 1. "L[i] = L'[i] - i + 1", so the Lyndon arrays are
// 9 1 1 6 2 1 3 1 1, which is P10, and 6 1 4 1 2 1.
fn source_001(rt: &impl Print, order: &[u8]) -> io::Result<()> {
    show::heading(rt, b"source 001, worked example (P10)")?;
    calls::lyndon_array(rt, b"\x00\x01\x01\x00\x02\x03\x01\x02\x02", order, 9)?;
    calls::lyndon_array(rt, b"\x00\x02\x01\x05\x03\x04", order, 6)
}

// Source 004, section 1: "aab is a Lyndon word, but its cyclic rotations aba and baa are not."
fn rotations(rt: &impl Print, order: &[u8]) -> io::Result<()> {
    show::heading(rt, b"source 004, section 1")?;
    calls::is_lyndon(rt, b"aab", order)?;
    calls::is_lyndon(rt, b"aba", order)?;
    calls::is_lyndon(rt, b"baa", order)?;
    calls::least_rotation(rt, b"aba", order)?;
    calls::least_rotation(rt, b"baa", order)
}

// Source 004, figure 1, the Lyndon word ababbababbabb (P11): "any prefix w of a Lyndon word can be represented as w = x^k x'. For instance,
// ababbababba = (ababb)^2 a. Thus, we store (|x|, k, |x'|) = (5, 2, 1) for this prefix". By lemma 10 the first group of a prefix is x^k, and the
// others are the groups of x'. The figure's rows for the prefixes of 1 to 13 letters:
//   |x|   1 2 2 2 5 5 5 5 5 5 5 5 13
//   k     1 1 1 2 1 1 1 1 1 2 2 2 1
//   |x'|  0 0 1 0 0 1 2 3 4 0 1 2 0
fn figure_1(rt: &impl Print, w: &[u8], order: &[u8], table: &[u16]) -> io::Result<()> {
    show::heading(rt, b"source 004, figure 1 (P11)")?;
    calls::is_lyndon(rt, w, order)?;
    calls::last_factors(rt, w, order, 13)?;
    calls::lyndon_array(rt, w, order, 13)?;
    calls::factor_prefix(rt, w, order, table, 1, 3)?;
    calls::factor_prefix(rt, w, order, table, 2, 3)?;
    calls::factor_prefix(rt, w, order, table, 3, 6)?;
    calls::factor_prefix(rt, w, order, table, 4, 3)?;
    calls::factor_prefix(rt, w, order, table, 5, 3)?;
    calls::factor_prefix(rt, w, order, table, 6, 6)?;
    calls::factor_prefix(rt, w, order, table, 7, 6)?;
    calls::factor_prefix(rt, w, order, table, 8, 9)?;
    calls::factor_prefix(rt, w, order, table, 9, 6)?;
    calls::factor_prefix(rt, w, order, table, 10, 3)?;
    calls::factor_prefix(rt, w, order, table, 11, 6)?;
    calls::factor_prefix(rt, w, order, table, 12, 6)?;
    calls::factor_prefix(rt, w, order, table, 13, 3)
}

// Source 004, figure 2: "the Lyndon tree of $abaababbababaaba and the path P_6 = w_1, .., w_10" from the root to the leaf of T[6]; of its nodes
// w_1, w_2, w_4, w_5, w_8, w_9 the right child is not on it, and their right children, the last first, "= b, b, ab, ab, aab, a is the decomposed
// Lyndon factorization of T[7..16]".
fn figure_2(rt: &impl Print, t: &[u8], order: &[u8], table: &mut [u16]) -> io::Result<()> {
    show::heading(rt, b"source 004, figure 2")?;
    calls::lyndon_tree(rt, b"$abaababbababaaba", order, 66)?;
    calls::lyndon_array(rt, t, order, 16)?;
    let _ = lyndon_tables::lyndon_array(t, order, table);
    calls::factor_suffix(rt, t, order, table, 6, 12)
}

// Source 004, example 8: "Let LF_u = abb, (ab)^2, a and LF_v = bc, b, abababcb, ab, (a)^2. Then, the medial decomposed Lyndon factor is z =
// abababcb [..] Thus, LF_uv = abb, (abababcb)^2, ab, (a)^2." u is the prefix of uv of 8 letters, v the suffix from there on.
fn example_8(rt: &impl Print, uv: &[u8], order: &[u8], table: &mut [u16]) -> io::Result<()> {
    show::heading(rt, b"source 004, example 8")?;
    calls::factor(rt, b"abbababa", order, 9)?;
    calls::factor(rt, b"bcbabababcbabaa", order, 15)?;
    calls::factor(rt, uv, order, 12)?;
    calls::is_lyndon(rt, b"abababcb", order)?;
    calls::longest_words(rt, uv, order, 2)?;
    calls::longest_word(rt, uv, order)?;
    let _ = lyndon_tables::last_factors(uv, order, table);
    calls::factor_prefix(rt, uv, order, table, 8, 9)?;
    let _ = lyndon_tables::lyndon_array(uv, order, table);
    calls::factor_suffix(rt, uv, order, table, 8, 15)
}

pub(crate) fn run(rt: &impl Print, order: &[u8]) -> io::Result<()> {
    source_001(rt, order)?;
    rotations(rt, order)?;
    figure_1(
        rt,
        b"ababbababbabb",
        order,
        &[1, 2, 1, 2, 5, 1, 2, 1, 2, 5, 1, 2, 13],
    )?;
    figure_2(rt, b"abaababbababaaba", order, &mut [OLD; 16])?;
    example_8(rt, b"abbabababcbabababcbabaa", order, &mut [OLD; 23])
}
