// What the program `edited` prints for an edit of a pattern that is not too long: the edited listing, or the refusal line. The tables are made
// here and the rows hold every answer, so that only 2, 3 and 4 refuse the edit.
#![tactic(auto)]

ghost use Rattle.std.specs.Prelude.{◌≤◌, length};
ghost use Rattle.refusals.specs.Refusals.{max_pattern};
ghost use Rattle.rows.specs.Written.{Puts};
ghost use Rattle.text.specs.Inner.{max_listing};
ghost use Rattle.edited_answer.specs.Answer.{edit_output};

use edit::MAX_MIDDLE;
use edit_core::core;
use edited_text::write_edited;
use lyndon_tables::{last_factors, lyndon_array};
use order_bytes::fill_byte_order;
use refusals::MAX_PATTERN;
use splicing::Edit;
use symbols::ORDER;
use text_writers::write_refused;

// Writes all that is printed for an edit to the front of a buffer that holds every listing. The answer tells whether the edit is accepted; the
// groups of the whole edited pattern are read off that pattern.
pub fn write_answer(edit: Edit, text: &mut [u8]) -> usize
    requires { (length edit.pattern.now ≤ max_pattern) × (max_listing ≤ length text.old) }
    ensures { Puts (edit_output edit.entry.pattern.now edit.entry.from edit.entry.to edit.entry.block.now) 0 text.old text.new result }
{
    let mut order = [0u8; ORDER];
    fill_byte_order(&mut order);
    let mut array = [0u16; MAX_PATTERN];
    // no table is refused, nor is the answer by anything but 2, 3 and 4
    let _ = lyndon_array(edit.pattern, &order, &mut array);
    let mut last = [0u16; MAX_PATTERN];
    let _ = last_factors(edit.pattern, &order, &mut last);
    let mut middle = [0u16; 3 * MAX_MIDDLE];
    let mut starts = [0u16; MAX_PATTERN];
    let answer = core(
        edit,
        &order,
        &array,
        &last,
        MAX_MIDDLE,
        &mut middle,
        &mut starts,
    );
    let Ok(_) = answer else {
        return write_refused(answer.unwrap_err(), text);
    };
    write_edited(edit, text)
}
