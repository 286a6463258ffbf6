// A row of any content tested against the reach table of a pattern, in place and from the right. That the row is long enough is the caller's concern.
#![tactic(auto)]

ghost use Rattle.std.specs.Prelude.{true, false, ◌≡◌, ℕ, ◌≤◌, length, take};
ghost use Rattle.std.specs.Option.{MatchOption};
ghost use Rattle.ranks.specs.Ranks.{ranked};
ghost use Rattle.words.specs.Order.{same};
ghost use Rattle.words.specs.Tables.{lyndon_array};
ghost use Rattle.memo.specs.Memo.{Memo};
ghost use Rattle.reach_table.specs.Reached.{EntriesFrom};
ghost use Rattle.reach_testing.specs.Tested.{TestedTo};

use memo::{Kept, SLOTS, entry};
use reach_table::{allowance, longest_at, merge_at};
use symbols::Ranking;

// Tests entries by comparison alone, from the right, for as long as that is cheap: the place from which on they are right, if none is wrong.
// A function of its own, whose loop has the registers to itself: within `lyndon_edit` it takes up to 1.3 times the time.
#[inline(never)]
fn test_plain(s: &[u8], ranks: Ranking, table: &[u16]) -> Option<usize>
    requires { length s.now ≤ length table.now }
    ensures { MatchOption result ((wrong : ℕ) × TestedTo (ranked ranks.entry.list.now s.now) table.now wrong true) (λ left. TestedTo (ranked ranks.entry.list.now s.now) table.now left false) }
{
    let mut budget = allowance(s);
    for i in (0..s.len()).rev() {
        let m = merge_at(s, ranks, table, i);
        if entry(table, i) != m.length {
            return None;
        }
        let cost = m.last / 16;
        if budget < cost {
            return Some(i);
        }
        budget -= cost;
    }
    Some(0)
}

// Whether the entries before `from` are right, with a true memo, where those from there on are.
fn test_by(s: &[u8], ranks: Ranking, table: &[u16], from: usize, memo: &mut [Kept]) -> bool
    requires { (from ≤ length s.now) × EntriesFrom (ranked ranks.list.now s.now) table.now from × Memo (ranked ranks.list.now s.now) memo.old }
    ensures { result ≡ same (take (length s.now) table.now) (lyndon_array (ranked ranks.entry.list.now s.now)) }
{
    for i in (0..from).rev() {
        let l = longest_at(s, ranks, table, i, memo);
        if entry(table, i) != l {
            return false;
        }
    }
    true
}

// The same, with a new memo.
fn test_rest(s: &[u8], ranks: Ranking, table: &[u16], from: usize) -> bool
    requires { (from ≤ length s.now) × EntriesFrom (ranked ranks.list.now s.now) table.now from }
    ensures { result ≡ same (take (length s.now) table.now) (lyndon_array (ranked ranks.entry.list.now s.now)) }
{
    let mut memo = [Kept::NONE; SLOTS];
    test_by(s, ranks, table, from, &mut memo)
}

// Whether the first entries of the table are the pattern's Lyndon array.
pub fn is_lyndon_array(s: &[u8], ranks: Ranking, table: &[u16]) -> bool
    requires { length s.now ≤ length table.now }
    ensures { result ≡ same (take (length s.now) table.now) (lyndon_array (ranked ranks.entry.list.now s.now)) }
{
    let Some(left) = test_plain(s, ranks, table) else {
        return false;
    };
    if left == 0 {
        return true;
    }
    test_rest(s, ranks, table, left)
}
