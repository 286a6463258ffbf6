// The parts of the listings, measured and written into a lent buffer, field by field: a line, the header, the refusal line.
// That the buffer is long enough is the caller's concern. The pass over all lines is `text_lines`.
#![tactic(auto)]

ghost use Rattle.std.specs.Prelude.{◌≡◌, ◌<◌, length};
ghost use Rattle.refusals.specs.Answers.{number_of};
ghost use Rattle.text.specs.Listing.{header, refusal_text};
ghost use Rattle.rows.specs.Written.{Room, Puts, Fits, Writes};
ghost use Rattle.text_writers.specs.Text.{text_of};

use decimal::digit_count;
use refusals::Refusal;
use rows::Writer;
use text_fields::{write_field, write_last, write_word};

// The first line of every listing.
pub const HEADER: [u8; 32] = *b"start,length,power,word,shared\r\n";

const REFUSED: [u8; 7] = *b"refused";

// The line of a group: where the group starts, the word of its factors, how many there are, and how many bytes the word shares with the next one.
#[derive(Clone, Copy)]
pub struct Line<'a> {
    pub start: usize,
    pub word: &'a [u8],
    pub power: usize,
    pub shared: usize,
}

// Writes a line.
#[tactic(auto, using(text::proofs::Lengths::line_parts))]
pub fn write_line(line: Line, out: &mut Writer)
    requires { Fits (text_of line) out.old }
    ensures { Writes (text_of line.entry) out.old out.new }
{
    write_field(line.start, out);
    write_field(line.word.len(), out);
    write_field(line.power, out);
    write_word(line.word, out);
    write_last(line.shared, out);
}

// The length of a line.
#[tactic(auto, using(text::proofs::Lengths::line_counts))]
pub fn line_length(line: Line) -> usize
    requires { length (text_of line) < 18446744073709551616 }
    ensures { result ≡ length (text_of line.entry) }
{
    let size = line.word.len();
    let digits = digit_count(line.start)
        + digit_count(size)
        + digit_count(line.power)
        + digit_count(line.shared);
    digits + 2 * size + 6
}

// Writes the header.
#[tactic(auto, unfolding(text::specs::Listing::header))]
pub fn write_header(out: &mut Writer)
    requires { Fits header out.old }
    ensures { Writes header out.old out.new }
{
    out.bytes(&HEADER);
}

// Writes all that is printed for the refusal of this number to the front of the buffer, and answers its length.
#[tactic(auto, using(text::proofs::Lengths::refusal_parts))]
pub fn write_refusal(number: usize, buffer: &mut [u8]) -> usize
    requires { Room (refusal_text number) 0 buffer.old }
    ensures { Puts (refusal_text number) 0 buffer.old buffer.new result }
{
    let mut out = Writer { buffer, at: 0 };
    out.bytes(&REFUSED);
    write_last(number, &mut out);
    out.at
}

// The same for a refusal.
pub fn write_refused(refusal: Refusal, buffer: &mut [u8]) -> usize
    requires { Room (refusal_text (number_of refusal)) 0 buffer.old }
    ensures { Puts (refusal_text (number_of refusal)) 0 buffer.old buffer.new result }
{
    write_refusal(usize::from(u8::from(refusal)), buffer)
}
