// The limits that the refusals test, the refusals with their numbers, and the number of the interface for C and Rust.
// When each refusal holds is defined in specs/, as a number and a test each, and so is what a filled row holds.
#![tactic(auto)]

ghost use Rattle.std.specs.Prelude.{◌≡◌};
ghost use Rattle.refusals.specs.Answers.{number_of, refusal_of};

// The longest pattern, stored or edited.
pub const MAX_PATTERN: usize = 16384;

// The longest block of an edit.
pub const MAX_BLOCK: usize = 256;

// The longest word of a tree.
pub const MAX_TREE: usize = 256;

// The longest wanted table.
pub const MAX_WANTED: usize = 256;

// The number of the interface that include/lyndon.h declares.
pub const INTERFACE: u32 = 1;

// Why a call is refused, in the order of the numbers. The names are those of include/lyndon.h.
#[derive(Clone, Copy, PartialEq, Eq)]
pub enum Refusal {
    PatternTooLong,
    PastEnd,
    BlockTooLong,
    EditedTooLong,
    NotTheTable,
    WordTooLong,
    NotLyndon,
    RowTooShort,
    NotABlock,
    Repeated,
    WantedTooLong,
    NoPattern,
    NotAnOrder,
}

// The number of a refusal, as C gets it and the programs print it.
impl From<Refusal> for u8 {
    ghost from_gives = { λ refusal n. n ≡ number_of refusal };

    fn from(refusal: Refusal) -> u8 {
        match refusal {
            Refusal::PatternTooLong => 1,
            Refusal::PastEnd => 2,
            Refusal::BlockTooLong => 3,
            Refusal::EditedTooLong => 4,
            Refusal::NotTheTable => 5,
            Refusal::WordTooLong => 6,
            Refusal::NotLyndon => 7,
            Refusal::RowTooShort => 8,
            Refusal::NotABlock => 9,
            Refusal::Repeated => 10,
            Refusal::WantedTooLong => 11,
            Refusal::NoPattern => 12,
            Refusal::NotAnOrder => 13,
        }
    }
}

// The number of the refusal that a call answers, 0 for none.
pub fn refusal_of<T: Copy>(answer: Result<T, Refusal>) -> u8
    ensures { result ≡ refusal_of answer }
{
    match answer {
        Ok(_) => 0,
        Err(refusal) => u8::from(refusal),
    }
}
