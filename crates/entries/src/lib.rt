// Sixteen entries of a table at a time, written, copied or tested, each compiled to a few steps on vectors; and after how many single ones
// sixteen are tried. What the entries say is the caller's concern.
#![tactic(auto)]

ghost use Rattle.std.specs.Prelude.{true, ◌≡◌, ◌+◌, ◌-◌, ◌≤◌, ◌<◌, length, get_or};
ghost use Rattle.rows.specs.Filled.{Right, Filled};
ghost use Rattle.agreeing.specs.Agrees.{Agrees};

// How many bytes are taken one by one before blocks are tried: all that are left where no block would be.
pub fn steps(gap: usize, left: usize) -> usize
    requires { (0 < gap) × (gap ≤ 256) }
    ensures { (result ≤ left) × (0 < left → 0 < result) }
{
    if left < gap + 16 { left } else { gap }
}

// Writes sixteen entries from `at` on for a word that grows by each byte from i on.
pub fn write_lengths(table: &mut [u16], i: usize, at: usize)
    requires { (i ≤ at) × (at + 16 ≤ 65535) × (at + 16 ≤ length table.old) }
    ensures { Filled (λ k. k + 1 - i) (at + 16) table.old table.new at (at + 16) }
{
    let first = at + 1 - i;
    for k in 0..16 {
        table[at + k] = (first + k) as u16;
    }
}

// Copies sixteen entries from `back` places before `at` to `at` on.
pub fn copy_entries(table: &mut [u16], at: usize, back: usize)
    requires { (16 ≤ back) × (back ≤ at) × (at + 16 ≤ length table.old) }
    ensures { Filled (λ k. get_or table.old (k - back) 0) (at + 16) table.old table.new at (at + 16) }
{
    let (before, rest) = table.split_at_mut(at);
    let from = at - back;
    rest[..16].copy_from_slice(&before[from..from + 16]);
}

// Whether the sixteen entries from `at` on are those of a word that grows by each byte from i on; entries have sixteen bits.
pub fn are_lengths(table: &[u16], i: usize, at: usize) -> bool
    requires { (i ≤ at) × (at + 16 ≤ length table.now) }
    ensures { result ≡ true → Right (λ k. k + 1 - i) table.now at (at + 16) }
{
    let size = at - i;
    if 65519 < size {
        return false;
    }
    let mut all = true;
    for k in 0..16 {
        let x = table[at + k];
        let y = (size + k + 1) as u16;
        all &= x == y;
    }
    all
}

// Whether the sixteen entries from `from` and from `at` on are the same.
// It has a twin for bytes, `agree_block`: one for both would tell of the type's own equality, from which each caller would have to come back to numbers.
pub fn same_entries(table: &[u16], from: usize, at: usize) -> bool
    requires { (from + 16 ≤ length table.now) × (at + 16 ≤ length table.now) }
    ensures { result ≡ true → Agrees table.now from table.now at 16 }
{
    let mut all = true;
    for k in 0..16 {
        let x = table[from + k];
        let y = table[at + k];
        all &= x == y;
    }
    all
}
