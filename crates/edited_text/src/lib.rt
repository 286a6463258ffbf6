// The edited listing, written to a lent buffer: one pass over the edited pattern, so that equal words across the seams of an edit are one
// group. That the edit can be made and the buffer is long enough is the caller's concern.
#![tactic(auto)]

ghost use Rattle.std.specs.Prelude.{◌≤◌, length};
ghost use Rattle.refusals.specs.Refusals.{max_pattern};
ghost use Rattle.rows.specs.Written.{Room, Puts};
ghost use Rattle.text.specs.Listing.{edited_text};
ghost use Rattle.words.specs.Edit.{edited};

use refusals::MAX_PATTERN;
use splicing::{Edit, splice};
use symbols::Ranking;
use text_lines::write_text;

// Writes the edited listing to the front of the buffer, and answers its length.
pub fn write_edited(edit: Edit, buffer: &mut [u8]) -> usize
    requires { (edit.from ≤ edit.to) × (edit.to ≤ length edit.pattern.now) × (length (edited edit.pattern.now edit.from edit.to edit.block.now) ≤ max_pattern)
        × Room (edited_text edit.pattern.now edit.from edit.to edit.block.now) 0 buffer.old }
    ensures { Puts (edited_text edit.entry.pattern.now edit.entry.from edit.entry.to edit.entry.block.now) 0 buffer.old buffer.new result }
{
    let mut t = [0u8; MAX_PATTERN];
    splice(edit, &mut t);
    let m = edit.edited_length();
    write_text(&t[..m], Ranking::of_bytes(), buffer)
}
