// The public library's tree of a Lyndon word. It tests its refusals and then calls `tree`.
#![tactic(auto)]

ghost use Rattle.refusals.specs.Filled.{filled_of};
ghost use Rattle.lyndon_tree.specs.Calls.{TreeListed};

use order_test::test_order;
use refusals::{MAX_TREE, Refusal};
use scan::next_group;
use tree::write_nodes;

// The nodes of the Lyndon tree, two numbers each: start, length. Refusals 13, 6, 7, 8.
pub fn lyndon_tree(word: &[u8], order: &[u8], nodes: &mut [u16]) -> Result<usize, Refusal>
    ensures { TreeListed word.now order.now nodes.old nodes.new (filled_of result) }
{
    let ranks = test_order(order)?;
    let n = word.len();
    if MAX_TREE < n {
        return Err(Refusal::WordTooLong);
    }
    if n == 0 {
        return Err(Refusal::NotLyndon);
    }
    let first = next_group(word, ranks, 0);
    if first.length != n {
        return Err(Refusal::NotLyndon);
    }
    let count = 2 * n - 1;
    if nodes.len() < 2 * count {
        return Err(Refusal::RowTooShort);
    }
    write_nodes(word, ranks, 0, n, nodes, 0);
    Ok(count)
}
