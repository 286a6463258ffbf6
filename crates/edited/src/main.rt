// Prints the edited listing of the pattern, the block and the edit in three files of the working folder, or the refusal line. A file that
// can't be opened or read is empty; of each file one byte is read past the longest that is accepted. What is to be printed for
// the bytes that were read is made and proved in `edited_output::write_output`; `main` reads and writes. Where writing fails, the status
// alone says so: a message would take read-only memory, which is short.
#![tactic(auto)]

ghost use Rattle.std.specs.Prelude.{◌≡◌, ◌≤◌, length, take};

use edited_output::write_output;
use refusals::{MAX_BLOCK, MAX_PATTERN};
use std::fs::File;
use std::process::ExitCode;
use std::rt::Files;
use streams::read_full;
use text::MAX_LISTING;

const PATTERN: &str = "pattern.bin";

const BLOCK: &str = "block.bin";

const EDIT: &str = "edit.csv";

// Reads a file's first bytes, as many as there is room for. One that can't be read is empty: no Option.
fn read_file(files: &impl Files, path: &str, bytes: &mut [u8]) -> usize
    ensures { (result ≤ length bytes.new) × (result ≡ length (take result bytes.new)) }
{
    let Ok(mut file) = File::open(files, path) else {
        return 0;
    };
    read_full(&mut file, bytes).unwrap_or(0)
}

fn main(rt: HostRuntime) -> ExitCode {
    let mut pattern = [0u8; MAX_PATTERN + 1];
    let n = read_file(&rt, PATTERN, &mut pattern);
    let mut block = [0u8; MAX_BLOCK + 1];
    let b = read_file(&rt, BLOCK, &mut block);
    let mut csv = [0u8; 23];
    let c = read_file(&rt, EDIT, &mut csv);
    let mut text = [0u8; MAX_LISTING];
    let count = write_output(&pattern[..n], &block[..b], &csv[..c], &mut text);
    match rt.write_all(&text[..count]) {
        Ok(()) => ExitCode::SUCCESS,
        Err(_) => ExitCode::FAILURE,
    }
}
