// What lets a word that begins with eight bytes c grow over bytes that are c themselves: whether a run of c breaks off, and where the last byte
// stands that is not c. Both are of the bytes, in any order; blocks of them are the concern of `byte_leaps` and `rank_leaps`.
#![tactic(auto)]

ghost use Rattle.std.specs.Prelude.{true, false, ◌≡◌, ◌⊎◌, ◌≤◌, ◌+◌, ◌-◌, length, get_or};
ghost use Rattle.rising.specs.Risen.{Run, Breaks};

// Whether one of the seven bytes behind place t is not c.
pub fn breaks(s: &[u8], t: usize, c: u8) -> bool
    requires { t + 8 ≤ length s.now }
    ensures { (result ≡ true → Breaks s.now c t) × (result ≡ false → Run s.now c t 8) }
{
    let mut some = false;
    for u in 1..8 {
        some |= s[t + u] != c;
    }
    some
}

// The place behind the last byte that is not c, from j on, before k; j where there is none.
pub fn last_other(s: &[u8], j: usize, k: usize, c: u8) -> usize
    requires { (j ≤ k) × (k ≤ length s.now) }
    ensures { (j ≤ result) × (result ≤ k) × ((result ≡ j) ⊎ (get_or s.now (result - 1) 0 ≡ c → ⊥)) }
{
    for t in (j..k).rev() {
        if s[t] != c {
            return t + 1;
        }
    }
    j
}
