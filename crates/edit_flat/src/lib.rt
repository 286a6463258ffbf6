// The answer to an edit as one flat struct, for the call that C and Rust link.
#![tactic(auto)]

ghost use Rattle.std.specs.Prelude.{◌≡◌};
ghost use Rattle.edit.specs.Core.{answer_told};
ghost use Rattle.edit_flat.specs.Flat.{flat_of};

use edit::Counts;
use refusals::Refusal;

// An answer as C takes it: the refusal's number, 0 where there is none, and the five numbers of an accepted edit, all 0 beside a refusal.
#[repr(C)]
#[derive(Clone, Copy)]
pub struct EditAnswer {
    pub refusal: u8,
    pub kept: usize,
    pub resume: usize,
    pub groups: usize,
    pub length: usize,
    pub starts: usize,
}

// Each case of the answer, as that struct.
impl From<Result<Counts, Refusal>> for EditAnswer {
    ghost from_gives = { λ answer flat. flat ≡ flat_of (answer_told answer) };

    fn from(answer: Result<Counts, Refusal>) -> EditAnswer {
        match answer {
            Ok(c) => EditAnswer {
                refusal: 0,
                kept: c.kept,
                resume: c.resume,
                groups: c.groups,
                length: c.length,
                starts: c.starts,
            },
            Err(refusal) => EditAnswer {
                refusal: refusal.into(),
                kept: 0,
                resume: 0,
                groups: 0,
                length: 0,
                starts: 0,
            },
        }
    }
}
