// A byte's two hexadecimal digits, read off one list of sixteen. Writing a whole word is left to `text_fields`.
#![tactic(auto)]

ghost use Rattle.std.specs.Prelude.{◌≡◌, ◌<◌};
ghost use Rattle.hex_digits.specs.Hex.{pair_of, HexDigits};

// The capital hexadecimal digits in their order.
const DIGITS: [u8; 16] = *b"0123456789ABCDEF";

// The list, to be kept while many bytes are written: a constant that is indexed is copied whole each time.
pub fn digit_list() -> [u8; 16]
    ensures { HexDigits result }
{
    DIGITS
}

// The two digits of the byte b, the high one first.
#[tactic(auto, unfolding(crate::specs::Hex::pair_of))]
pub fn pair_of(digits: &[u8; 16], b: usize) -> [u8; 2]
    requires { HexDigits digits.now × (b < 256) }
    ensures { result ≡ pair_of b }
{
    let high = digits[b / 16];
    let low = digits[b % 16];
    [high, low]
}
