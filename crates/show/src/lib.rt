// Prints to standard output: headings, words, rows, and the answers of the calls, each number after its name. What prints answers with the error
// of the output alone, so there is nothing for an `ensures` to speak of. The calls themselves are made in `calls.rt` and `edits.rt`; which cases are
// run is left to the programs.
#![tactic(auto)]

pub mod calls;
pub mod edits;

ghost use Rattle.std.specs.Prelude.{◌≡◌, ◌<◌, slice_set};
ghost use Rattle.show.specs.Digest.{Numbers, digest_from};

use block_place::Span;
use comparing::{Compared, smaller_number};
use lyndon_trigger::WordPlace;
use lyndon_words::Starts;
use order_test::test_order;
use refusals::{Refusal, refusal_of};
use std::io;

// A word or a row of up to so many elements is printed whole.
const WHOLE: usize = 70;

pub fn text(rt: &impl Print, s: &[u8]) -> io::Result<()> {
    rt.write_all(s)
}

pub fn heading(rt: &impl Print, s: &[u8]) -> io::Result<()> {
    text(rt, b"# ")?;
    text(rt, s)?;
    text(rt, b"\n")
}

// As in ` count 3`.
pub fn number(rt: &impl Print, name: &[u8], n: u64) -> io::Result<()> {
    text(rt, b" ")?;
    text(rt, name)?;
    print!(rt; " {n}")
}

// A byte as its letter, or as a backslash and two hexadecimal digits where it has none.
fn byte(rt: &impl Print, b: u8) -> io::Result<()> {
    if 32 < b && b < 127 {
        text(rt, &[b])
    } else {
        print!(rt; "\\{b:02x}")
    }
}

fn bytes(rt: &impl Print, s: &[u8]) -> io::Result<()> {
    for &b in s {
        byte(rt, b)?;
    }
    Ok(())
}

// A word: `empty`, its bytes, or how many there are.
pub fn word(rt: &impl Print, s: &[u8]) -> io::Result<()> {
    text(rt, b" ")?;
    if s.is_empty() {
        text(rt, b"empty")
    } else if s.len() <= WHOLE {
        bytes(rt, s)
    } else {
        let n = s.len();
        print!(rt; "{n} bytes")
    }
}

fn entries(rt: &impl Print, r: &[u16]) -> io::Result<()> {
    for &entry in r {
        print!(rt; " {entry}")?;
    }
    Ok(())
}

// One number for all of a row, or of bytes, and their order: from 0 on, each entry is added to 31 times the number so far, modulo 65,521.
fn digest<T: Copy + Into<u16>>(row: &[T]) -> u64
    ensures { (numbers : _) × Numbers T.converts row.now numbers × (result ≡ digest_from 0 numbers) }
{
    let mut d = 0;
    for &entry in row {
        let number: u16 = entry.into();
        d = (d * 31 + u64::from(number)) % 65521;
    }
    d
}

// A word, with the digest of one that is not printed whole.
pub fn content(rt: &impl Print, s: &[u8]) -> io::Result<()> {
    word(rt, s)?;
    if WHOLE < s.len() {
        number(rt, b"digest", digest(s))?;
    }
    Ok(())
}

// The order of a call. Byte order goes without saying: `test_order` hands down none of its ranks.
pub fn order(rt: &impl Print, ranks: &[u8]) -> io::Result<()> {
    if test_order(ranks).is_ok_and(|used| used.list.is_empty()) {
        return Ok(());
    }
    text(rt, b" order")?;
    content(rt, ranks)
}

// A row after its name: `empty`, its entries, or how many there are and their digest.
pub fn row(rt: &impl Print, name: &[u8], r: &[u16]) -> io::Result<()> {
    text(rt, b" ")?;
    text(rt, name)?;
    if r.is_empty() {
        text(rt, b" empty")
    } else if r.len() <= WHOLE {
        entries(rt, r)
    } else {
        number(rt, b"of", r.len() as u64)?;
        number(rt, b"digest", digest(r))
    }
}

// A table with another entry in one place.
pub fn changed<const N: usize>(mut table: [u16; N], at: usize, value: u16) -> [u16; N]
    requires { at < N }
    ensures { result ≡ slice_set table.entry at value }
{
    table[at] = value;
    table
}

// What an answer begins with: the refusal's number, 0 for none.
pub(crate) fn refusal<T: Copy>(rt: &impl Print, a: Result<T, Refusal>) -> io::Result<()> {
    text(rt, b":")?;
    number(rt, b"refusal", u64::from(refusal_of(a)))
}

// The answer of a call that fills a row or a buffer.
fn count(rt: &impl Print, a: Result<usize, Refusal>) -> io::Result<()> {
    refusal(rt, a)?;
    number(rt, b"count", a.unwrap_or(0) as u64)
}

// Such an answer, and the row as the call leaves it.
pub fn filled(rt: &impl Print, a: Result<usize, Refusal>, r: &[u16]) -> io::Result<()> {
    count(rt, a)?;
    row(rt, b"row", r)?;
    text(rt, b"\n")
}

// Such an answer, and the buffer as the call leaves it.
pub fn buffer(rt: &impl Print, a: Result<usize, Refusal>, s: &[u8]) -> io::Result<()> {
    count(rt, a)?;
    text(rt, b" buffer")?;
    content(rt, s)?;
    text(rt, b"\n")
}

// The answer of the call for a wanted table: the Lyndon array of the pattern in the buffer, and the buffer behind it.
pub fn realised(
    rt: &impl Print,
    a: Result<usize, Refusal>,
    array: &[u16],
    behind: &[u8],
) -> io::Result<()> {
    count(rt, a)?;
    row(rt, b"array", array)?;
    text(rt, b" behind")?;
    content(rt, behind)?;
    text(rt, b"\n")
}

pub fn span(rt: &impl Print, a: Result<Span, Refusal>) -> io::Result<()> {
    refusal(rt, a)?;
    let told = a.unwrap_or(Span { place: 0, count: 0 });
    number(rt, b"place", told.place as u64)?;
    number(rt, b"count", told.count as u64)?;
    text(rt, b"\n")
}

pub fn starts(rt: &impl Print, a: Result<Starts, Refusal>, r: &[u16]) -> io::Result<()> {
    refusal(rt, a)?;
    let told = a.unwrap_or(Starts {
        length: 0,
        count: 0,
    });
    number(rt, b"length", told.length as u64)?;
    number(rt, b"count", told.count as u64)?;
    row(rt, b"row", r)?;
    text(rt, b"\n")
}

pub fn place(rt: &impl Print, a: WordPlace) -> io::Result<()> {
    text(rt, b":")?;
    number(rt, b"start", a.start as u64)?;
    number(rt, b"length", a.length as u64)?;
    text(rt, b"\n")
}

pub fn verdict(rt: &impl Print, a: Result<bool, Refusal>) -> io::Result<()> {
    refusal(rt, a)?;
    if a.unwrap_or(false) {
        text(rt, b" yes\n")
    } else {
        text(rt, b" no\n")
    }
}

pub fn compared(rt: &impl Print, a: Result<Compared, Refusal>) -> io::Result<()> {
    if let Ok(told) = a {
        text(rt, b":")?;
        number(rt, b"shared", told.shared as u64)?;
        number(rt, b"smaller", u64::from(smaller_number(told.ordering)))?;
    } else {
        refusal(rt, a)?;
    }
    text(rt, b"\n")
}

pub fn position(rt: &impl Print, a: Result<usize, Refusal>) -> io::Result<()> {
    refusal(rt, a)?;
    number(rt, b"start", a.unwrap_or(0) as u64)?;
    text(rt, b"\n")
}
