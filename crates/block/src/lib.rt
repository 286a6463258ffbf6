// The public calls on definite length blocks of IEEE 488.2: where the bytes of a block are, which `block_place` finds, and a pattern written as a
// block. None of the calls requires anything.
#![tactic(auto)]

ghost use Rattle.refusals.specs.Filled.{filled_of};
ghost use Rattle.block.specs.Calls.{BlockRead, BlockWritten, extent_of};

use block_place::{Span, locate};
use decimal::{digit_count, write_decimal};
use refusals::{MAX_PATTERN, Refusal};
use rows::Writer;

// The place and count of the bytes within a definite length block. Refusals 9, 1.
pub fn read_block(bytes: &[u8]) -> Result<Span, Refusal>
    ensures { BlockRead bytes.now (extent_of result) }
{
    let Some(found) = locate(bytes) else {
        return Err(Refusal::NotABlock);
    };
    if MAX_PATTERN < found.count {
        return Err(Refusal::PatternTooLong);
    }
    Ok(found)
}

// The pattern as a definite length block with the fewest digits and no line feed; the count is of bytes. Refusals 1, 8.
pub fn write_block(pattern: &[u8], bytes: &mut [u8]) -> Result<usize, Refusal>
    ensures { BlockWritten pattern.now bytes.old bytes.new (filled_of result) }
{
    let size = pattern.len();
    if MAX_PATTERN < size {
        return Err(Refusal::PatternTooLong);
    }
    let digits = digit_count(size);
    if bytes.len() < 2 + digits + size {
        return Err(Refusal::RowTooShort);
    }
    let mut out = Writer {
        buffer: bytes,
        at: 0,
    };
    out.byte(b'#');
    out.byte(b'0' + digits as u8);
    write_decimal(size, &mut out);
    out.bytes(pattern);
    Ok(out.at)
}
