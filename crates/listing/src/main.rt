// Prints the factor listing of the pattern on standard input, or the refusal line. It reads no more than one byte over the longest pattern.
// What is to be printed for the bytes that were read is made and proved in `write_output`; `main` reads and writes. Where reading or writing
// fails, the status alone says so: a message would take read-only memory, which is short.
#![tactic(auto)]

ghost use Rattle.std.specs.Prelude.{◌≤◌, length};
ghost use Rattle.text.specs.Inner.{max_listing};
ghost use Rattle.text.specs.Listing.{Begins};
ghost use Rattle.listing.specs.Output.{output};

use lyndon_text::write_listing;
use order_bytes::fill_byte_order;
use refusals::MAX_PATTERN;
use std::process::ExitCode;
use streams::read_full;
use symbols::ORDER;
use text::MAX_LISTING;
use text_writers::write_refused;

// Writes all that is printed for a pattern to the front of a buffer that holds every listing.
fn write_output(pattern: &[u8], text: &mut [u8]) -> usize
    requires { max_listing ≤ length text.old }
    ensures { Begins (output pattern.now) text.old text.new result }
{
    let mut order = [0u8; ORDER];
    fill_byte_order(&mut order);
    match write_listing(pattern, &order, text) {
        Ok(count) => count,
        Err(refusal) => write_refused(refusal, text),
    }
}

fn main(rt: HostRuntime) -> ExitCode {
    let mut pattern = [0u8; MAX_PATTERN + 1];
    let Ok(n) = read_full(&mut rt.stdin(), &mut pattern) else {
        return ExitCode::FAILURE;
    };
    let mut text = [0u8; MAX_LISTING];
    let count = write_output(&pattern[..n], &mut text);
    match rt.write_all(&text[..count]) {
        Ok(()) => ExitCode::SUCCESS,
        Err(_) => ExitCode::FAILURE,
    }
}
