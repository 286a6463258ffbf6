// The fields of a line of the listings, written into a lent buffer: words in hexadecimal, and numbers in decimal with what stands beside them.
// That the buffer is long enough is the caller's concern. Lines are `text_writers`' concern.
#![tactic(auto)]

ghost use Rattle.text.specs.Hexadecimal.{hexadecimal};
ghost use Rattle.text.specs.Listing.{field, last_field};
ghost use Rattle.rows.specs.Written.{Fits, Writes};

use decimal::write_decimal;
use hex_digits::{digit_list, pair_of};
use rows::Writer;

const LINE_END: [u8; 2] = *b"\r\n";

// Writes the bytes of a word in hexadecimal.
pub fn write_word(word: &[u8], out: &mut Writer)
    requires { Fits (hexadecimal word.now) out.old }
    ensures { Writes (hexadecimal word.now) out.old out.new }
{
    let digits = digit_list();
    for &byte in word {
        let [high, low] = pair_of(&digits, byte as usize);
        out.byte(high);
        out.byte(low);
    }
}

// Writes a number and the comma behind it.
#[tactic(auto, using(text::proofs::Lengths::length_field))]
pub fn write_field(n: usize, out: &mut Writer)
    requires { Fits (field n) out.old }
    ensures { Writes (field n) out.old out.new }
{
    write_decimal(n, out);
    out.byte(b',');
}

// Writes the last number of a line, the comma before it and the line end behind it.
#[tactic(auto, using(text::proofs::Lengths::length_last, decimal::proofs::Decimal::length_decimal))]
pub fn write_last(n: usize, out: &mut Writer)
    requires { Fits (last_field n) out.old }
    ensures { Writes (last_field n) out.old out.new }
{
    out.byte(b',');
    write_decimal(n, out);
    out.bytes(&LINE_END);
}
