// A word of a pattern beside the one that follows it: how far they agree, and whether the first is smaller, by comparison and with what is known already.
#![tactic(auto)]

ghost use Rattle.std.specs.Prelude.{◌+◌, ◌<◌, ◌≤◌, length};
ghost use Rattle.ranks.specs.Ranks.{ranked};
ghost use Rattle.memo.specs.Memo.{Alike};
ghost use Rattle.agreeing.specs.Agrees.{Agrees};
ghost use Rattle.reach_compare.specs.Beside.{Compares, Beside};

use symbols::Ranking;

// How far a word agrees with the next one, and whether it is smaller. No Option: both are told of every two words.
#[derive(Clone, Copy)]
pub struct Step {
    pub e: usize,
    pub up: bool,
}

// The word from i up to j beside the next one, of y bytes; the shorter of the two has `len`, and the first `known` bytes of these agree.
fn beside_from(
    s: &[u8],
    ranks: Ranking,
    i: usize,
    j: usize,
    y: usize,
    len: usize,
    known: usize,
) -> Step
    requires { Compares s.now i j y len × (known ≤ len) × Agrees s.now i s.now j known }
    ensures { Beside (ranked ranks.entry.list.now s.now) i j y result.e result.up }
{
    for e in known..len {
        let x = s[i + e];
        let z = s[j + e];
        if x != z {
            return Step {
                e,
                up: ranks.below(x, z),
            };
        }
    }
    Step {
        e: len,
        up: len < y,
    }
}

// The same where nothing is known. Mostly the first bytes tell.
pub fn beside_anew(s: &[u8], ranks: Ranking, i: usize, j: usize, y: usize) -> Step
    requires { (i < j) × (0 < y) × (j + y ≤ length s.now) }
    ensures { Beside (ranked ranks.entry.list.now s.now) i j y result.e result.up }
{
    let c = s[i];
    let d = s[j];
    if c != d {
        return Step {
            e: 0,
            up: ranks.below(c, d),
        };
    }
    beside_from(s, ranks, i, j, y, (j - i).min(y), 0)
}

// The same where the first `known` bytes agree.
pub fn beside(s: &[u8], ranks: Ranking, i: usize, j: usize, y: usize, known: usize) -> Step
    requires { (i < j) × (0 < y) × (j + y ≤ length s.now) × Alike (ranked ranks.list.now s.now) i j known }
    ensures { Beside (ranked ranks.entry.list.now s.now) i j y result.e result.up }
{
    if known == 0 {
        return beside_anew(s, ranks, i, j, y);
    }
    let len = (j - i).min(y);
    beside_from(s, ranks, i, j, y, len, known.min(len))
}
