// The test of refusal 13: whether a list is an order, and whether it is byte order, of which no ranks are handed down.
// Byte order is told by steps of sixteen ranks, and only what is not byte order is looked at rank by rank.
#![tactic(auto)]

ghost use Rattle.std.specs.Prelude.{◌≡◌, ◌+◌, ◌-◌, ◌%◌, ◌<◌, ◌≤◌, true, false, length, slice_index, IfOk, IfErr};
ghost use Rattle.rows.specs.Filled.{Right};
ghost use Rattle.ranks.specs.Ranks.{is_order, byte_order};
ghost use Rattle.ranks.specs.Inner.{Handed};

use refusals::Refusal;
use std::num::wrapping_add_u8;
use symbols::{ORDER, Ranking};

// Whether each of the sixteen ranks from i on is one more than the rank before it, and so needs no list to be compared with.
fn rising_block(order: &[u8], i: usize) -> bool
    requires { (0 < i) × (i + 16 ≤ length order.now) }
    ensures { result ≡ true → Right (λ b. (slice_index order.now (b - 1) + 1) % 256) order.now i (i + 16) }
{
    let mut all = true;
    for k in 0..16 {
        let next = wrapping_add_u8(order[i + k - 1], 1);
        all &= order[i + k] == next;
    }
    all
}

// Whether 256 ranks are byte order: they begin with 0, and each next one is one more, by steps of sixteen. Where it says yes they are an order,
// and need no further test.
fn is_byte_order(order: &[u8]) -> bool
    requires { length order.now ≡ 256 }
    ensures { result ≡ true → order.now ≡ byte_order }
{
    if order[0] != 0 {
        return false;
    }
    for i in (1..240).step_by(16) {
        if !rising_block(order, i) {
            return false;
        }
    }
    rising_block(order, 240)
}

// Whether 256 ranks hold each of 0 to 255 once: none stands twice.
fn none_twice(order: &[u8]) -> bool
    requires { length order.now ≡ 256 }
    ensures { result ≡ is_order order.now }
{
    let mut marks = [0u8; ORDER];
    for &rank in order {
        let at = usize::from(rank);
        if marks[at] != 0 {
            return false;
        }
        marks[at] = 1;
    }
    true
}

// The test of refusal 13: the ranks to be handed down, which are none of byte order.
#[tactic(auto, using(ranks::proofs::Marks::order_true, ranks::proofs::Marks::wrong_size, ranks::proofs::Marks::handed_all, ranks::proofs::Marks::handed_none))]
pub fn test_order(order: &[u8]) -> Result<Ranking, Refusal>
    ensures accepted { IfOk result (λ ranks. Handed order.now ranks.list.now) }
    ensures refused { IfErr result (λ refusal. (refusal ≡ Refusal.NotAnOrder) × (is_order order.now ≡ false)) }
{
    if order.len() != ORDER {
        return Err(Refusal::NotAnOrder);
    }
    if is_byte_order(order) {
        return Ok(Ranking::of_bytes());
    }
    if none_twice(order) {
        return Ok(Ranking::of_order(order));
    }
    Err(Refusal::NotAnOrder)
}
