// An entry of the reach table, which is the Lyndon array, from the entries behind it: the word there grows by the words that follow while it is smaller.
// Words are compared plainly while that is cheap, and else with a memo, so that no pattern takes quadratic time. Making and testing a table are
// the concern of the crates above.
#![tactic(auto)]

ghost use Rattle.std.specs.Prelude.{◌≡◌, ◌+◌, ◌<◌, length};
ghost use Rattle.ranks.specs.Ranks.{ranked};
ghost use Rattle.words.specs.Tables.{longest_at};
ghost use Rattle.memo.specs.Memo.{Memo};
ghost use Rattle.reach_table.specs.Reached.{EntriesFrom, Reached};

use memo::{Kept, best, entry, keep, recall};
use reach_compare::{beside, beside_anew};
use symbols::Ranking;

// The entry of a place, and how many bytes agreed where its word ended.
#[derive(Clone, Copy)]
pub struct Merged {
    pub length: usize,
    pub last: usize,
}

// The length of the longest Lyndon substring at i, from the entries of the table behind i, by comparison alone.
// A hint to compile it into its callers, since most places take a step or two: as a call `lyndon_array` takes 1.3 to 1.7 times the time.
#[inline]
pub fn merge_at(s: &[u8], ranks: Ranking, table: &[u16], i: usize) -> Merged
    requires { (i < length s.now) × EntriesFrom (ranked ranks.list.now s.now) table.now (i + 1) }
    ensures { result.length ≡ longest_at (ranked ranks.entry.list.now s.now) i }
{
    let mut j = i + 1;
    // no range: how long each word is, its entry says
    while j < s.len() {
        let y = entry(table, j);
        let step = beside_anew(s, ranks, i, j, y);
        let e = step.e;
        if !step.up {
            return Merged {
                length: j - i,
                last: e,
            };
        }
        j += y;
    }
    Merged {
        length: j - i,
        last: 0,
    }
}

// The same with a memo: what is known of the last word taken in, which starts at i + d, tells how far i agrees with the next.
pub fn longest_at(s: &[u8], ranks: Ranking, table: &[u16], i: usize, memo: &mut [Kept]) -> usize
    requires { (i < length s.now) × EntriesFrom (ranked ranks.list.now s.now) table.now (i + 1) × Memo (ranked ranks.list.now s.now) memo.old }
    ensures { Reached (ranked ranks.entry.list.now s.now) i memo.new result }
{
    let mut j = i + 1;
    let mut d = 0;
    let mut edge = 0;
    let mut shared = 0;
    // no range: how long each word is, its entry says
    while j < s.len() {
        let y = entry(table, j);
        let next = beside(s, ranks, i, j, y, edge.min(shared));
        let e = next.e;
        if !next.up {
            keep(s, ranks.list, memo, i, e, d, best(shared, edge, e));
            return j - i;
        }
        d = j - i;
        let k = recall(s, ranks.list, memo, i, d, e);
        edge = k.edge;
        shared = k.shared;
        j += y;
    }
    j - i
}

// What plain comparison may cost, in sixteens of bytes that agreed where a word ended: about as much as clearing the memo and a pass.
pub fn allowance(s: &[u8]) -> usize {
    16 + s.len() / 16
}
