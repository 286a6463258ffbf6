// A table of any content tested for being the prefix table of a pattern, the lengths of its last factors, in place and along Duval's scan.
// That it is long enough is the caller's concern.
#![tactic(auto)]

ghost use Rattle.std.specs.Prelude.{◌≡◌, ◌≤◌, ◌<◌, length, take};
ghost use Rattle.std.specs.Option.{MatchOption};
ghost use Rattle.ranks.specs.Ranks.{ranked};
ghost use Rattle.words.specs.Demand.{FactorStart};
ghost use Rattle.words.specs.Order.{same};
ghost use Rattle.words.specs.Tables.{last_factors};
ghost use Rattle.prefix_testing.specs.Tested.{TestedFrom};

use entries::steps;
use leaps::next_gap;
use prefix_testing_leaps::test_blocks;
use symbols::Ranking;

// Tests the entries of one scan from i on, and answers where the next scan starts, if none of them is wrong.
#[tactic(auto, using(ranks::proofs::Ranked::length_ranked))]
fn test_from(s: &[u8], ranks: Ranking, table: &[u16], i: usize) -> Option<usize>
    requires { FactorStart (ranked ranks.list.now s.now) i × (length s.now ≤ length table.now) }
    ensures { MatchOption result (TestedFrom (ranked ranks.entry.list.now s.now) table.now i i) (λ next. (i < next) × TestedFrom (ranked ranks.entry.list.now s.now) table.now i next) }
{
    if table[i] != 1 {
        return None;
    }
    let n = s.len();
    let mut size = 1;
    let mut end = i + 1;
    let mut gap = 8;
    // no range: how far blocks go is known after them
    while end < n {
        let stop = end + steps(gap, n - end);
        for k in end..stop {
            let old = s[k - size];
            let new = s[k];
            if old != new {
                if ranks.below(new, old) {
                    return Some(k - (k - i) % size);
                }
                size = k + 1 - i;
                if table[k] as usize != size {
                    return None;
                }
            } else if table[k] != table[k - size] {
                return None;
            }
        }
        let m = test_blocks(s, ranks, table, i, stop, size);
        gap = next_gap(gap, 256, stop < m.j);
        size = m.p;
        end = m.j;
    }
    Some(end - (end - i) % size)
}

// Whether the first entries of the table are the lengths of the last factors of the pattern's prefixes.
pub fn is_last_factors(s: &[u8], ranks: Ranking, table: &[u16]) -> bool
    requires { length s.now ≤ length table.now }
    ensures { result ≡ same (take (length s.now) table.now) (last_factors (ranked ranks.entry.list.now s.now)) }
{
    let mut start = 0;
    // no range: where a scan ends is known after it
    while start < s.len() {
        let Some(next) = test_from(s, ranks, table, start) else {
            return false;
        };
        start = next;
    }
    true
}
