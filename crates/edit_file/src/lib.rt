// The parser of the file edit.csv: the line `from,to`, then one line of two decimal numbers of one to five digits.
#![tactic(auto)]

ghost use Rattle.std.specs.Prelude.{◌≡◌, ◌<◌, ◌≤◌, length, take};
ghost use Rattle.words.specs.Order.{same};
ghost use Rattle.edit_file.specs.EditFile.{header, Answers};
ghost use Rattle.edit_file.specs.Fields.{FieldOf};

use comparing::agree;
use decimal::{leading_digits, value_of};

// The stretch that an edit replaces, as the file says it.
#[derive(Clone, Copy)]
pub struct Stretch {
    pub from: usize,
    pub to: usize,
}

const HEADER: [u8; 9] = *b"from,to\r\n";

const LINE_FEED: [u8; 1] = *b"\n";

// A number, and the place behind the byte that closes it.
#[derive(Clone, Copy)]
struct Closed {
    value: usize,
    end: usize,
}

// The number that a text starts with, where this byte, which is no digit, closes it.
fn first_field(text: &[u8], close: u8) -> Option<Closed>
    requires { close < 48 }
    ensures { FieldOf text.now close result }
{
    let count = leading_digits(text);
    if count == 0 {
        return None;
    }
    if 5 < count {
        return None;
    }
    if text.len() <= count {
        return None;
    }
    if text[count] != close {
        return None;
    }
    Some(Closed {
        value: value_of(&text[..count]),
        end: count + 1,
    })
}

// Whether a file begins with the header.
fn has_header(bytes: &[u8]) -> bool
    requires { length header ≤ length bytes.now }
    ensures { result ≡ same (take (length header) bytes.now) header }
{
    agree(&bytes[..HEADER.len()], &HEADER)
}

// The two numbers that the file says.
pub fn parse(bytes: &[u8]) -> Option<Stretch>
    ensures { Answers bytes.now result }
{
    let size = HEADER.len();
    if bytes.len() < size {
        return None;
    }
    if !has_header(bytes) {
        return None;
    }
    let line = &bytes[size..];
    let first = first_field(line, b',')?;
    let rest = &line[first.end..];
    let second = first_field(rest, b'\r')?;
    if !agree(&rest[second.end..], &LINE_FEED) {
        return None;
    }
    Some(Stretch {
        from: first.value,
        to: second.value,
    })
}
