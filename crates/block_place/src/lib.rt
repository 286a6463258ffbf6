// Where the bytes of a definite length block of IEEE 488.2 are, if it is one: by its parts, which `block_parts` and `decimal` read.
#![tactic(auto)]

ghost use Rattle.block_place.specs.Located.{Locates};

use block_parts::{Header, ends_at, header_of};
use decimal::{leading_digits, value_of};

#[derive(Clone, Copy)]
pub struct Span {
    pub place: usize,
    pub count: usize,
}

// Where the bytes of a block are, however many they are.
pub fn locate(block: &[u8]) -> Option<Span>
    ensures { Locates block.now result }
{
    let size = block.len();
    if size < 2 {
        return None;
    }
    if block[0] != b'#' {
        return None;
    }
    let Header::Definite(digits) = header_of(block[1]) else {
        return None;
    };
    let place = 2 + digits;
    if size < place {
        return None;
    }
    if leading_digits(&block[2..place]) < digits {
        return None;
    }
    let count = value_of(&block[2..place]);
    if !ends_at(block, place + count) {
        return None;
    }
    Some(Span { place, count })
}
