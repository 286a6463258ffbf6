// The longest patterns: 16,384 bytes are accepted and more are refused with 1; a tree's word of 256 bytes is accepted and more are refused with 6.
use show::calls;
use show::calls::OLD;
use std::io;

// Each call of `lyndon`, `lyndon_tables`, `lyndon_words`, `lyndon_test`, `lyndon_rotation`, `lyndon_prefix` and `lyndon_suffix` that has refusal 1. Both questions ask for
// the groups of the whole pattern.
fn each_call(rt: &impl Print, pattern: &[u8], order: &[u8], table: &mut [u16]) -> io::Result<()> {
    calls::factor(rt, pattern, order, 4)?;
    calls::lyndon_array(rt, pattern, order, 16385)?;
    calls::last_factors(rt, pattern, order, 16385)?;
    calls::longest_words(rt, pattern, order, 2)?;
    calls::longest_word(rt, pattern, order)?;
    calls::is_lyndon(rt, pattern, order)?;
    calls::least_rotation(rt, pattern, order)?;
    let _ = lyndon_tables::last_factors(pattern, order, table);
    calls::factor_prefix(rt, pattern, order, table, pattern.len(), 4)?;
    let _ = lyndon_tables::lyndon_array(pattern, order, table);
    calls::factor_suffix(rt, pattern, order, table, 0, 4)
}

// a .. a b, one Lyndon word of 16,384 bytes: its Lyndon array is 16384 16383 .. 1, its prefix table 1 1 .. 1 16384.
fn accepted(rt: &impl Print, order: &[u8]) -> io::Result<()> {
    show::heading(rt, b"16384 bytes: a .. a b")?;
    let mut pattern = [b'a'; 16384];
    pattern[16383] = b'b';
    each_call(rt, &pattern, order, &mut [OLD; 16384])
}

fn refused(rt: &impl Print, order: &[u8]) -> io::Result<()> {
    show::heading(rt, b"16385 bytes: a .. a b")?;
    let mut pattern = [b'a'; 16385];
    pattern[16384] = b'b';
    each_call(rt, &pattern, order, &mut [OLD; 16385])?;
    show::heading(rt, b"65536 bytes")?;
    each_call(rt, &[b'a'; 65536], order, &mut [OLD; 16385])
}

// 16,384 factors: one group, a table of ones, 16,384 starts; no phase mark, since one letter is repeated.
fn repeated(rt: &impl Print, pattern: &[u8], order: &[u8]) -> io::Result<()> {
    show::heading(rt, b"16384 bytes: a .. a")?;
    calls::factor(rt, pattern, order, 3)?;
    calls::lyndon_array(rt, pattern, order, 16383)?;
    calls::lyndon_array(rt, pattern, order, 16384)?;
    calls::last_factors(rt, pattern, order, 16383)?;
    calls::last_factors(rt, pattern, order, 16384)?;
    calls::longest_words(rt, pattern, order, 16383)?;
    calls::longest_words(rt, pattern, order, 16384)?;
    calls::longest_words(rt, pattern, order, 16385)?;
    calls::is_lyndon(rt, pattern, order)?;
    calls::least_rotation(rt, pattern, order)
}

fn last_start(rt: &impl Print, order: &[u8]) -> io::Result<()> {
    show::heading(rt, b"16384 bytes: a .. a b a")?;
    let mut pattern = [b'a'; 16384];
    pattern[16382] = b'b';
    calls::least_rotation(rt, &pattern, order)
}

// a .. a b: 511 nodes, 1,022 numbers. The tree has no refusal 1.
fn trees(rt: &impl Print, order: &[u8]) -> io::Result<()> {
    show::heading(rt, b"256 bytes: a .. a b, a row one short, exact, longer")?;
    let mut accepted = [b'a'; 256];
    accepted[255] = b'b';
    calls::lyndon_tree(rt, &accepted, order, 1021)?;
    calls::lyndon_tree(rt, &accepted, order, 1022)?;
    calls::lyndon_tree(rt, &accepted, order, 1024)?;
    show::heading(rt, b"257 bytes: a .. a b, and 16385 bytes")?;
    let mut refused = [b'a'; 257];
    refused[256] = b'b';
    calls::lyndon_tree(rt, &refused, order, 1026)?;
    calls::lyndon_tree(rt, &[b'a'; 16385], order, 1026)
}

// Either string is enough.
fn comparisons(rt: &impl Print, accepted: &[u8], refused: &[u8], order: &[u8]) -> io::Result<()> {
    show::heading(rt, b"compared: 16384 bytes a .. a and 16385; 65536 bytes")?;
    calls::compare(rt, accepted, accepted, order)?;
    calls::compare(rt, accepted, b"b", order)?;
    calls::compare(rt, refused, accepted, order)?;
    calls::compare(rt, accepted, refused, order)?;
    calls::compare(rt, refused, refused, order)?;
    calls::compare(rt, b"b", refused, order)?;
    calls::compare(rt, &[b'a'; 65536], b"", order)
}

pub(crate) fn run(rt: &impl Print, order: &[u8]) -> io::Result<()> {
    accepted(rt, order)?;
    refused(rt, order)?;
    repeated(rt, &[b'a'; 16384], order)?;
    last_start(rt, order)?;
    trees(rt, order)?;
    comparisons(rt, &[b'a'; 16384], &[b'a'; 16385], order)
}
