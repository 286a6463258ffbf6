// The splicing of an edited pattern: a stretch of the stored one makes way for a block. That there is room is the caller's concern.
#![tactic(auto)]

ghost use Rattle.std.specs.Prelude.{◌≡◌, ◌≤◌, length};
ghost use Rattle.ranks.specs.Ranks.{Bytes};
ghost use Rattle.ranks.proofs.Known.{bytes_prop};
ghost use Rattle.rows.specs.Row.{written};
ghost use Rattle.words.specs.Edit.{edited};

use rows::Writer;

// An edit of a stored pattern: the stretch from `from` to `to` makes way for a block. What is said of ranks needs that both are bytes.
#[derive(Clone, Copy)]
pub struct Edit<'a> {
    pub pattern: &'a [u8],
    pub from: usize,
    pub to: usize,
    pub block: &'a [u8],
    pub ghost pattern_bytes: { Bytes pattern.now } by { bytes_prop pattern.now },
    pub ghost block_bytes: { Bytes block.now } by { bytes_prop block.now },
}

impl<'a> Edit<'a> {
    // The length of the edited pattern.
    #[tactic(auto, using(words::proofs::Edit::length_edited))]
    pub fn edited_length(&self) -> usize
        requires { (self.now.from ≤ self.now.to) × (self.now.to ≤ length self.now.pattern.now) }
        ensures { result ≡ length (edited self.now.pattern.now self.now.from self.now.to self.now.block.now) }
    {
        self.from + self.block.len() + (self.pattern.len() - self.to)
    }
}

// Writes the edited pattern to the front of t.
#[tactic(auto, using(words::proofs::Edit::length_edited))]
pub fn splice(edit: Edit, t: &mut [u8])
    requires { (edit.from ≤ edit.to) × (edit.to ≤ length edit.pattern.now) × (length (edited edit.pattern.now edit.from edit.to edit.block.now) ≤ length t.old) }
    ensures { t.new ≡ written (edited edit.entry.pattern.now edit.entry.from edit.entry.to edit.entry.block.now) t.old }
{
    let mut out = Writer { buffer: t, at: 0 };
    out.bytes(&edit.pattern[..edit.from]);
    out.bytes(edit.block);
    out.bytes(&edit.pattern[edit.to..]);
}
