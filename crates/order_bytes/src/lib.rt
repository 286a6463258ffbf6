// What is written by an order: byte order itself, the bytes by their ranks, and the byte of each rank in a row that holds ranks.
// That a list is an order, and that a row is long enough, is the caller's concern.
#![tactic(auto)]

ghost use Rattle.std.specs.Prelude.{◌≡◌, ◌≤◌, length, take};
ghost use Rattle.rows.specs.Row.{written};
ghost use Rattle.ranks.specs.Ranks.{Order, byte_order, ranked};
ghost use Rattle.ranks.specs.Inner.{Inverse};

use symbols::ORDER;

// Writes byte order to the front of a row. Each rank is made of its half, which is read back from the row: this compiles to a loop, where a
// counter would be written out of 256 constant bytes, and read-only memory is short.
pub fn fill_byte_order(order: &mut [u8])
    requires { 256 ≤ length order.old }
    ensures { order.new ≡ written byte_order order.old }
{
    order[0] = 0;
    for b in 1..ORDER {
        let half = usize::from(order[b / 2]);
        order[b] = (2 * half + b % 2) as u8;
    }
}

// The bytes by their ranks.
pub fn bytes_of(order: &[u8]) -> [u8; 256]
    requires { Order order.now }
    ensures { Inverse order.now result }
{
    let mut bytes = [0u8; ORDER];
    for b in 0..ORDER {
        let rank = usize::from(order[b]);
        bytes[rank] = b as u8;
    }
    bytes
}

// Puts the byte of each rank in its place, for the first n entries of a row that holds ranks.
pub fn replace_ranks(row: &mut [u8], n: usize, bytes: &[u8; 256])
    requires { (n ≤ length row.old) × (length bytes.now ≡ 256) }
    ensures { row.new ≡ written (ranked bytes.now (take n row.old)) row.old }
{
    for x in &mut row[..n] {
        *x = bytes[usize::from(*x)];
    }
}
