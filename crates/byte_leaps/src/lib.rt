// How far a word grows over blocks in byte order, where sixteen bytes are tested at a time: those above its first byte c, and those that are c where
// what follows is greater than what follows in the word.
#![tactic(auto)]

ghost use Rattle.std.specs.Prelude.{true, ◌≡◌, ℕ, ◌≤◌, ◌<◌, ◌+◌, ◌-◌, length};
ghost use Rattle.words.specs.Scan.{Scan};
ghost use Rattle.rising.specs.Risen.{Risen};

use rising::{breaks, last_other};

// Whether each of the sixteen bytes from j is above c, or is c where its place meets the test.
fn risen_block<F: Fn(usize) -> bool>(s: &[u8], j: usize, c: u8, meets: &F) -> bool
    requires within { j + 16 ≤ length s.now }
    requires callable { (t : ℕ) → t < j + 16 → F.pre meets.now t }
    ensures { result ≡ true → Risen s.now c (λ t. F.post meets.now t true) j (j + 16) }
{
    let mut all = true;
    for u in 0..16 {
        let x = s[j + u];
        all &= (c < x) | (c == x) & meets(j + u);
    }
    all
}

// How far from j on that holds, block by block, where the test of a place reads so many bytes behind it.
fn risen_blocks<F: Fn(usize) -> bool>(s: &[u8], j: usize, c: u8, behind: usize, meets: &F) -> usize
    requires from { j ≤ length s.now }
    requires fits { behind < 16 }
    requires callable { (t : ℕ) → t + behind < length s.now → F.pre meets.now t }
    ensures after { j ≤ result }
    ensures within { result ≤ length s.now }
    ensures risen { Risen s.now c (λ t. F.post meets.now t true) j result }
{
    // No `step_by(16)`: it tests the end twice more a turn, beside a few vector instructions.
    let mut k = j;
    while 16 + behind <= s.len() - k {
        if !risen_block(s, k, c, meets) {
            return k;
        }
        k += 16;
    }
    k
}

// Where the Lyndon word from i to j, of eight bytes or more, ends after it has grown over blocks. A suffix that starts in them is greater than the
// word by its first two bytes, or, where the word begins with eight bytes c, by fewer of them.
pub fn grow_bytes(s: &[u8], i: usize, j: usize) -> usize
    requires { (i + 8 ≤ j) × Scan s.now i j (j - i) }
    ensures { (j ≤ result) × Scan s.now i result (result - i) }
{
    let c = s[i];
    if breaks(s, i, c) {
        let d = s[i + 1];
        let k = risen_blocks(s, j, c, 1, &|t| d < s[t + 1]);
        return last_other(s, j, k, c);
    }
    let k = risen_blocks(s, j, c, 7, &|t| breaks(s, t, c));
    last_other(s, j, k, c)
}
