// The prefix table of a pattern, the lengths of its last factors, made into a row along Duval's scan. That the row is long enough is the caller's concern.
#![tactic(auto)]

ghost use Rattle.std.specs.Prelude.{◌≡◌, ◌≤◌, length};
ghost use Rattle.ranks.specs.Ranks.{ranked};
ghost use Rattle.rows.specs.Row.{written};
ghost use Rattle.words.specs.Demand.{FactorStart};
ghost use Rattle.words.specs.Tables.{last_factors};
ghost use Rattle.prefix_making.specs.Made.{MadeFrom};

use entries::steps;
use leaps::next_gap;
use prefix_making_leaps::make_blocks;
use symbols::Ranking;

// Writes the entries of one scan from i on, and answers where the next scan starts.
#[tactic(auto, using(ranks::proofs::Ranked::length_ranked))]
fn make_from(s: &[u8], ranks: Ranking, table: &mut [u16], i: usize) -> usize
    requires { FactorStart (ranked ranks.list.now s.now) i × (length s.now ≤ 65535) × (length s.now ≤ length table.old) }
    ensures { MadeFrom (ranked ranks.entry.list.now s.now) table.old table.new i result }
{
    let n = s.len();
    table[i] = 1;
    let mut p = 1;
    let mut j = i + 1;
    let mut gap = 8;
    // no range: how far blocks go is known after them
    while j < n {
        let stop = j + steps(gap, n - j);
        for k in j..stop {
            let x = s[k - p];
            let y = s[k];
            if x != y {
                if ranks.below(y, x) {
                    return k - (k - i) % p;
                }
                p = k + 1 - i;
                table[k] = p as u16;
            } else {
                table[k] = table[k - p];
            }
        }
        let m = make_blocks(s, ranks, table, i, stop, p);
        gap = next_gap(gap, 256, stop < m.j);
        p = m.p;
        j = m.j;
    }
    j - (j - i) % p
}

pub fn make_last_factors(s: &[u8], ranks: Ranking, table: &mut [u16])
    requires { (length s.now ≤ 65535) × (length s.now ≤ length table.old) }
    ensures { table.new ≡ written (last_factors (ranked ranks.entry.list.now s.now)) table.old }
{
    let mut i = 0;
    // no range: where a scan ends is known after it
    while i < s.len() {
        i = make_from(s, ranks, table, i);
    }
}
