// What the program `edited` prints for the contents of its three files: the refusal line of too long a pattern or a malformed edit.csv, or
// what is printed for the edit.
#![tactic(auto)]

ghost use Rattle.std.specs.Prelude.{◌≤◌, length};
ghost use Rattle.text.specs.Inner.{max_listing};
ghost use Rattle.edited_output.specs.Output.{Prints};

use edit_file::parse;
use edited_answer::write_answer;
use refusals::{MAX_PATTERN, Refusal};
use splicing::Edit;
use text_writers::write_refused;

// Writes all that is printed for the contents of the three files to the front of such a buffer.
#[tactic(auto, using(text::proofs::Lengths::refusal_room))]
pub fn write_output(pattern: &[u8], block: &[u8], csv: &[u8], text: &mut [u8]) -> usize
    requires { max_listing ≤ length text.old }
    ensures { Prints pattern.now block.now csv.now text.old text.new result }
{
    if MAX_PATTERN < pattern.len() {
        return write_refused(Refusal::PatternTooLong, text);
    }
    let Some(stretch) = parse(csv) else {
        return write_refused(Refusal::PastEnd, text);
    };
    let edit = Edit {
        pattern,
        from: stretch.from,
        to: stretch.to,
        block,
    };
    write_answer(edit, text)
}
