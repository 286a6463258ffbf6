// The parts of a definite length block of IEEE 488.2: what the byte after the hash mark says, and where a block ends. The digits of the count are
// read by `decimal`, and `block_place` puts the parts together.
#![tactic(auto)]

ghost use Rattle.std.specs.Prelude.{◌≡◌};
ghost use Rattle.block_parts.specs.Block.{ends_at};
ghost use Rattle.block_parts.specs.Inner.{HeaderOf};

// What the byte after the hash mark says: how many digits follow, that no count is given, or nothing. Three cases: no
// Option.
#[derive(Clone, Copy)]
pub enum Header {
    Definite(usize),
    Indefinite,
    Other,
}

pub fn header_of(c: u8) -> Header
    ensures { HeaderOf c result }
{
    match c {
        b'1'..=b'9' => Header::Definite((c - b'0') as usize),
        b'0' => Header::Indefinite,
        _ => Header::Other,
    }
}

// Whether the block ends at this place, or has one line feed there.
pub fn ends_at(block: &[u8], end: usize) -> bool
    ensures { result ≡ ends_at end block.now }
{
    if block.len() < end {
        return false;
    }
    match &block[end..] {
        [] => true,
        [byte] => *byte == b'\n',
        _ => false,
    }
}
