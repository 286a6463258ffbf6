// A pattern for a wanted reach table whose stretches nest, as `realisation` proves that it has the table. Whether they nest is told by
// `wanted_testing`; refusals and the room for the pattern are the caller's concern.
#![tactic(auto)]

ghost use Rattle.std.specs.Prelude.{◌≡◌, ◌≤◌, length};
ghost use Rattle.realisation.specs.Nested.{Nests};
ghost use Rattle.realisation.specs.Symbols.{symbols};
ghost use Rattle.refusals.specs.Refusals.{max_wanted};
ghost use Rattle.rows.specs.Row.{written};

use refusals::MAX_WANTED;

// Writes a pattern that has the table. Where the stretch of a place ends is its parent, whose symbol is there before its own: from the right.
pub fn write_symbols(table: &[u16], pattern: &mut [u8])
    requires { (length table.now ≤ max_wanted) × (length table.now ≤ length pattern.old) × Nests table.now }
    ensures { pattern.new ≡ written (symbols table.now) pattern.old }
{
    let n = table.len();
    // how many children a place has: of the places counted so far, and then of those that have no symbol yet
    let mut children = [0u16; MAX_WANTED + 1];
    for k in 0..n {
        children[k + table[k] as usize] += 1;
    }
    for i in (0..n).rev() {
        let end = i + table[i] as usize;
        let earlier = children[end] - 1;
        children[end] = earlier;
        if end < n {
            pattern[i] = pattern[end] + 1 + earlier as u8;
        } else {
            pattern[i] = earlier as u8;
        }
    }
}
