// The refusals of an edit that need no result, 1 to 5, tested in their order. Refusal 8 and the answer are left to other crates.
#![tactic(auto)]

ghost use Rattle.std.specs.Prelude.{◌≡◌};
ghost use Rattle.ranks.specs.Ranks.{ranked};
ghost use Rattle.refusals.specs.Answers.{refusal_of};
ghost use Rattle.refusals.specs.Refusals.{first_of, edit_refusals};

use prefix_testing::is_last_factors;
use reach_testing::is_lyndon_array;
use refusals::{MAX_BLOCK, MAX_PATTERN, Refusal};
use splicing::Edit;
use symbols::Ranking;

// The first of the refusals 1 to 5 that holds, if one does.
#[tactic(auto, using(crate::proofs::Refused::ways_through))]
pub fn refusal(edit: Edit, ranks: Ranking, array: &[u16], last: &[u16]) -> Result<(), Refusal>
    ensures { refusal_of result ≡ first_of (edit_refusals (ranked ranks.entry.list.now edit.entry.pattern.now) array.now last.now edit.entry.from edit.entry.to (ranked ranks.entry.list.now edit.entry.block.now)) }
{
    let n = edit.pattern.len();
    if MAX_PATTERN < n {
        return Err(Refusal::PatternTooLong);
    }
    if edit.to < edit.from {
        return Err(Refusal::PastEnd);
    }
    if n < edit.to {
        return Err(Refusal::PastEnd);
    }
    if MAX_BLOCK < edit.block.len() {
        return Err(Refusal::BlockTooLong);
    }
    let m = edit.edited_length();
    if MAX_PATTERN < m {
        return Err(Refusal::EditedTooLong);
    }
    if array.len() < n {
        return Err(Refusal::NotTheTable);
    }
    if !is_lyndon_array(edit.pattern, ranks, array) {
        return Err(Refusal::NotTheTable);
    }
    if last.len() < n {
        return Err(Refusal::NotTheTable);
    }
    if !is_last_factors(edit.pattern, ranks, last) {
        return Err(Refusal::NotTheTable);
    }
    Ok(())
}
