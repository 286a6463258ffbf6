// The smallest start of a least rotation, and whether the pattern is a shorter word repeated, read off the groups of the doubled pattern.
// The doubled pattern is not written out: a group that may go on round the end is compared there with the pattern's front.
#![tactic(auto)]

ghost use Rattle.std.specs.Prelude.{◌≡◌};
ghost use Rattle.ranks.specs.Ranks.{ranked};
ghost use Rattle.words.specs.Rotation.{least_rotation, repeated};

use rotation_round::compare_round;
use scan::groups;
use symbols::Ranking;

// What the doubled pattern shows of the pattern. No Option: a repeated pattern has its start too, which `least_start` promises.
#[derive(Clone, Copy)]
pub struct Least {
    pub start: usize,
    pub repeated: bool,
}

// The smallest start of a least rotation: that of the first group that nothing smaller than its word follows. The pattern is a shorter word
// repeated exactly when that word is shorter, comes once more, and fills the pattern so.
pub fn least_start(s: &[u8], ranks: Ranking) -> Least
    ensures { (result.start ≡ least_rotation (ranked ranks.entry.list.now s.now)) × (result.repeated ≡ repeated (ranked ranks.entry.list.now s.now)) }
{
    let n = s.len();
    for g in groups(s, ranks, 0) {
        let round = compare_round(s, ranks, g.start, g.length, g.power);
        let span = g.power * g.length;
        if round.is_ge() {
            let outside = n - span;
            return Least {
                start: g.start,
                repeated: round.is_eq() & (outside <= g.length) & (g.length < n),
            };
        }
    }
    Least {
        start: 0,
        repeated: false,
    }
}
