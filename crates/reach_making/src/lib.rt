// The reach table of a pattern made into a row, in place and from the right. That the row is long enough is the caller's concern.
#![tactic(auto)]

ghost use Rattle.std.specs.Prelude.{◌≡◌, ◌≤◌, length};
ghost use Rattle.ranks.specs.Ranks.{ranked};
ghost use Rattle.rows.specs.Filled.{Filled};
ghost use Rattle.rows.specs.Row.{written};
ghost use Rattle.words.specs.Tables.{longest_at, lyndon_array};
ghost use Rattle.memo.specs.Memo.{Memo};
ghost use Rattle.reach_table.specs.Reached.{EntriesFrom};

use memo::{Kept, SLOTS};
use reach_table::{allowance, longest_at, merge_at};
use symbols::Ranking;

// Makes entries by comparison alone, from the right, for as long as that is cheap: the place from which on they are made.
fn make_plain(s: &[u8], ranks: Ranking, table: &mut [u16]) -> usize
    requires { (length s.now ≤ 65535) × (length s.now ≤ length table.old) }
    ensures { (result ≤ length s.now) × Filled (longest_at (ranked ranks.entry.list.now s.now)) (length s.now) table.old table.new result (length s.now) }
{
    let mut budget = allowance(s);
    for i in (0..s.len()).rev() {
        let m = merge_at(s, ranks, table, i);
        table[i] = m.length as u16;
        let cost = m.last / 16;
        if budget < cost {
            return i;
        }
        budget -= cost;
    }
    0
}

// Makes the entries before `from`, with a true memo.
fn make_by(s: &[u8], ranks: Ranking, table: &mut [u16], from: usize, memo: &mut [Kept])
    requires { (length s.now ≤ 65535) × (from ≤ length s.now) × EntriesFrom (ranked ranks.list.now s.now) table.old from × Memo (ranked ranks.list.now s.now) memo.old }
    ensures { Filled (longest_at (ranked ranks.entry.list.now s.now)) (length s.now) table.old table.new 0 (length s.now) }
{
    for i in (0..from).rev() {
        let l = longest_at(s, ranks, table, i, memo);
        table[i] = l as u16;
    }
}

// Makes the entries before `from`, where those from there on are right.
fn make_rest(s: &[u8], ranks: Ranking, table: &mut [u16], from: usize)
    requires { (length s.now ≤ 65535) × (from ≤ length s.now) × EntriesFrom (ranked ranks.list.now s.now) table.old from }
    ensures { Filled (longest_at (ranked ranks.entry.list.now s.now)) (length s.now) table.old table.new 0 (length s.now) }
{
    let mut memo = [Kept::NONE; SLOTS];
    make_by(s, ranks, table, from, &mut memo);
}

pub fn make_lyndon_array(s: &[u8], ranks: Ranking, table: &mut [u16])
    requires { (length s.now ≤ 65535) × (length s.now ≤ length table.old) }
    ensures { table.new ≡ written (lyndon_array (ranked ranks.entry.list.now s.now)) table.old }
{
    let left = make_plain(s, ranks, table);
    if 0 < left {
        make_rest(s, ranks, table, left);
    }
}
