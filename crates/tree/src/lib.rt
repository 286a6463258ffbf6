// The nodes of the Lyndon tree of a Lyndon word, written to a row of numbers.
// That the word is a Lyndon word and the row long enough is the caller's concern.
#![tactic(auto)]

ghost use Rattle.std.specs.Prelude.{◌≡◌, ◌+◌, ◌*◌, ◌≤◌, length, take, drop};
ghost use Rattle.ranks.specs.Ranks.{ranked};
ghost use Rattle.rows.specs.Row.{written_at};
ghost use Rattle.words.specs.Tables.{LyndonAt};
ghost use Rattle.words.specs.Tree.{tree_nodes, node_numbers};

use factoring::last_factor;
use symbols::Ranking;

// Writes the nodes of the part of this start and length from place `at` of the row on, and answers the place after them.
pub fn write_nodes(
    word: &[u8],
    ranks: Ranking,
    start: usize,
    size: usize,
    row: &mut [u16],
    at: usize,
) -> usize
    requires { LyndonAt (ranked ranks.list.now word.now) size start × (length word.now ≤ 65535) × (at + 4 * size ≤ length row.old + 2) }
    ensures { (result + 2 ≡ at + 4 * size)
        × (row.new ≡ written_at at (node_numbers (tree_nodes start (take size (drop start (ranked ranks.entry.list.now word.now))))) row.old) }
{
    row[at] = start as u16;
    row[at + 1] = size as u16;
    if size == 1 {
        return at + 2;
    }
    let a = start + 1;
    let b = start + size;
    let right = last_factor(&word[a..b], ranks);
    let left = size - right;
    let next = write_nodes(word, ranks, start, left, row, at + 2);
    write_nodes(word, ranks, start + left, right, row, next)
}
