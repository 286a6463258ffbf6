// Prints the trigger word of each line of standard input, in byte order. No archive can export `longest_word`, which answers a part of the pattern, so
// that this program runs it; what must be printed, the file `stdout`, was computed from the definition, by comparing all substrings.
#![tactic(auto)]

use lyndon_trigger::longest_word;
use order_bytes::fill_byte_order;
use std::io;
use streams::read_full;
use symbols::ORDER;

// Prints the trigger word of each line.
fn print_words(rt: &impl Print, text: &[u8], order: &[u8]) -> io::Result<()> {
    for line in text.split_inclusive(|&byte| byte == b'\n') {
        let word = longest_word(line.strip_suffix(b"\n").unwrap_or(line), order);
        rt.write_all(word)?;
        rt.write_all(b"\n")?;
    }
    Ok(())
}

fn main(rt: HostRuntime) -> io::Result<()> {
    let mut order = [0u8; ORDER];
    fill_byte_order(&mut order);
    let mut text = [0u8; 4096];
    let n = read_full(&mut rt.stdin(), &mut text)?;
    print_words(&rt, &text[..n], &order)
}
