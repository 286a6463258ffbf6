// The orders of the cases.
ghost use Rattle.std.specs.Prelude.{◌≡◌, length};

use order_bytes::fill_byte_order;

// Each rank is the one before it and a step, modulo 256: an order where the step is odd.
pub(crate) fn stepping(order: &mut [u8], first: u8, step: u8) {
    let mut rank = first;
    for place in order {
        *place = rank;
        rank = std::num::wrapping_add_u8(rank, step);
    }
}

// The letters b, c, a have the ranks that a, b, c have in byte order.
fn letters(order: &mut [u8])
    requires { length order.old ≡ 256 }
{
    fill_byte_order(order);
    order[98] = 97;
    order[99] = 98;
    order[97] = 99;
}

// The same, and 7F and 80 change places.
pub(crate) fn moved(order: &mut [u8])
    requires { length order.old ≡ 256 }
{
    letters(order);
    order[127] = 128;
    order[128] = 127;
}
