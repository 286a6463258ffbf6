// Comparison of two strings: how far they agree, which is smaller, and whether they are the same.
// Whether bytes agree does not depend on their ranks, so these are looked up at the first difference alone.
#![tactic(auto)]

ghost use Rattle.std.specs.Prelude.{◌≡◌, ◌≤◌, ◌+◌, length, take, drop};
ghost use Rattle.words.specs.Order.{same, shared};
ghost use Rattle.agreeing.specs.Agrees.{Agrees, Begun, Agreed};
ghost use Rattle.comparing.specs.Compared.{compared, smaller_of, SharedTold};

use agreeing::agree_blocks;
use std::cmp::Ordering;
use symbols::Ranking;

// How many of the first `len` bytes from i of a and from j of b agree, byte by byte; the first `from` do.
pub fn agree_bytes(a: &[u8], i: usize, b: &[u8], j: usize, from: usize, len: usize) -> usize
    requires { Begun a.now i b.now j from len }
    ensures { Agreed a.now i b.now j from len result }
{
    for k in from..len {
        let left = a[i + k];
        let right = b[j + k];
        if left != right {
            return k;
        }
    }
    len
}

// What is told of two strings: their shared length, and how the first is ordered to the second.
#[derive(Clone, Copy)]
pub struct Compared {
    pub shared: usize,
    pub ordering: Ordering,
}

// The number of the string that is smaller: 1 the first, 2 the second, 0 where neither is.
pub fn smaller_number(ordering: Ordering) -> u8
    ensures { result ≡ smaller_of ordering }
{
    match ordering {
        Ordering::Less => 1,
        Ordering::Greater => 2,
        Ordering::Equal => 0,
    }
}

// How many of the first `end` bytes of two strings agree, in whole blocks; of a few bytes none, which the byte loop compares as fast.
fn first_blocks(a: &[u8], b: &[u8], end: usize) -> usize
    requires { (end ≤ length a.now) × (end ≤ length b.now) }
    ensures { (result ≤ end) × Agrees a.now 0 b.now 0 result }
{
    if end < 32 {
        return 0;
    }
    agree_blocks(&a[..end], 0, &b[..end], 0, end)
}

// The length of the common beginning of two strings: by blocks, then the bytes behind them.
fn shared_bytes(a: &[u8], b: &[u8]) -> usize
    ensures { SharedTold a.now b.now result }
{
    let end = a.len().min(b.len());
    let k = first_blocks(a, b, end);
    agree_bytes(a, 0, b, 0, k, end)
}

// Compares two strings: the ranks of the first bytes that differ decide, or the lengths.
pub fn compare(a: &[u8], b: &[u8], ranks: Ranking) -> Compared
    ensures { result ≡ compared ranks.entry.list.now a.now b.now }
{
    let k = shared_bytes(a, b);
    if k < a.len().min(b.len()) {
        let x = ranks.rank_of(a[k]);
        let y = ranks.rank_of(b[k]);
        return Compared {
            shared: k,
            ordering: x.cmp(&y),
        };
    }
    Compared {
        shared: k,
        ordering: a.len().cmp(&b.len()),
    }
}

// Whether a and b are the same string.
pub fn agree(a: &[u8], b: &[u8]) -> bool
    ensures { result ≡ same a.now b.now }
{
    // no `==` of slices: it is a second comparison, and the one in `shared_bytes` tells it as well
    if a.len() != b.len() {
        return false;
    }
    shared_bytes(a, b) == a.len()
}

// The shared length of two parts of a pattern, of m bytes from i on and of n bytes from j on.
pub fn shared_length(s: &[u8], i: usize, m: usize, j: usize, n: usize) -> usize
    requires { (i + m ≤ length s.now) × (j + n ≤ length s.now) }
    ensures { result ≡ shared (take m (drop i s.now)) (take n (drop j s.now)) }
{
    let end = i + m;
    let stop = j + n;
    shared_bytes(&s[i..end], &s[j..stop])
}
