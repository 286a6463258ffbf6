// Numbers in decimal, written into a lent buffer and read from digits. That the buffer is long enough, and that what is read are
// digits, is the caller's concern.
#![tactic(auto)]

ghost use Rattle.std.specs.Prelude.{◌≡◌, ◌≤◌, length};
ghost use Rattle.rows.specs.Written.{Fits, Writes};
ghost use Rattle.decimal.specs.Decimal.{decimal, read, Digits};
ghost use Rattle.decimal.specs.Leading.{Leading};

use rows::Writer;

// How many digits a number has in decimal.
pub fn digit_count(n: usize) -> usize
    ensures { result ≡ length (decimal n) }
{
    // No `ilog10`: its table of powers is read-only memory, which is short.
    let mut count = 1;
    let mut rest = n;
    while 10 <= rest {
        rest /= 10;
        count += 1;
    }
    count
}

// Writes a number in decimal, the last digit first.
pub fn write_decimal(n: usize, out: &mut Writer)
    requires { Fits (decimal n) out.old }
    ensures { Writes (decimal n) out.old out.new }
{
    let end = out.at + digit_count(n);
    let mut rest = n;
    for i in (out.at..end).rev() {
        out.buffer[i] = b'0' + (rest % 10) as u8;
        rest /= 10;
    }
    out.at = end;
}

// How many digits a text starts with.
pub fn leading_digits(text: &[u8]) -> usize
    ensures { Leading text.now result }
{
    text.iter().take_while(|c| c.is_ascii_digit()).count()
}

// The number that at most nine digits read as.
pub fn value_of(digits: &[u8]) -> usize
    requires { (length digits.now ≤ 9) × Digits digits.now }
    ensures { result ≡ read digits.now }
{
    let mut value = 0;
    for &d in digits {
        value = 10 * value + usize::from(d - b'0');
    }
    value
}
