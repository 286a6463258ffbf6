// A small memo of agreements inside a pattern: how far a place agrees with the end of its longest Lyndon word, and with the place a step further on.
// It has two halves of 128 slots, one for short agreements and one for long ones; the number of a place says its slot.
// Which slot is read or written never matters for what is true.
#![tactic(auto)]

ghost use Rattle.std.specs.Prelude.{◌⊎◌, ◌≡◌, ◌+◌, ◌<◌, ◌≤◌, length, get_or};
ghost use Rattle.std.specs.Option.{IfSome};
ghost use Rattle.ranks.specs.Ranks.{ranked};
ghost use Rattle.memo.specs.Memo.{Alike, Slot, none, Memo, Knows};

// How many slots a memo has.
pub const SLOTS: usize = 256;

// A slot: how many bytes from a place on agree with those from the end of its word on (`edge`), and with those `distance` further on (`run`).
#[derive(Clone, Copy)]
pub struct Kept {
    pub place: u16,
    pub edge: u16,
    pub distance: u16,
    pub run: u16,
}

impl Kept {
    // An empty slot: of place 0, that no byte agrees.
    pub const NONE: Kept = Kept {
        place: 0,
        edge: 0,
        distance: 0,
        run: 0,
    };
}

// A number of a row.
pub fn entry(row: &[u16], k: usize) -> usize
    requires { k < length row.now }
    ensures { result ≡ get_or row.now k 0 }
{
    row[k] as usize
}

// The slot of the memo that has place x, if one has.
fn slot_of(memo: &[Kept], x: usize) -> Option<usize>
    requires { 256 ≤ length memo.now }
    ensures { IfSome result (λ t. (t < 256) × ((get_or memo.now t none).place ≡ x)) }
{
    let near = x % 128;
    if memo[near].place as usize == x {
        return Some(near);
    }
    let far = 128 + x / 128 % 128;
    if memo[far].place as usize == x {
        return Some(far);
    }
    None
}

// How many bytes are known to agree: `edge` of a place with the end of its word, and `shared` of i with that place.
#[derive(Clone, Copy)]
pub struct Known {
    pub edge: usize,
    pub shared: usize,
}

// What the memo tells of the place i + d, with which f bytes from i on agree; few are not looked up, unless a run may go on.
#[tactic(auto, using(ranks::proofs::Ranked::length_ranked, crate::proofs::Slots::knows_none, crate::proofs::Slots::knows_slot, crate::proofs::Slots::knows_run))]
pub fn recall(s: &[u8], ranks: &[u8], memo: &[Kept], i: usize, d: usize, f: usize) -> Known
    requires { Memo (ranked ranks.now s.now) memo.now × (i + d < length s.now) × Alike (ranked ranks.now s.now) i (i + d) f }
    ensures { Knows (ranked ranks.now s.now) i d result.edge result.shared }
{
    if f < 16 {
        if f != d {
            return Known { edge: 0, shared: f };
        }
    }
    let Some(t) = slot_of(memo, i + d) else {
        return Known { edge: 0, shared: f };
    };
    let kept = &memo[t];
    let edge = kept.edge as usize;
    if f == d {
        if kept.distance as usize == d {
            // the first d bytes agree, so i goes on as its place does
            let run = kept.run as usize;
            return Known {
                edge,
                shared: d + run,
            };
        }
    }
    Known { edge, shared: f }
}

// The slot for place i: in one half of the memo for short agreements, in the other for long ones.
fn slot_for(i: usize, e: usize) -> usize
    ensures { result < 256 }
{
    if e < 128 {
        return i % 128;
    }
    128 + i / 128 % 128
}

// Keeps what was found of place i, where it is worth a slot and the numbers fit.
#[tactic(auto, using(ranks::proofs::Ranked::length_ranked))]
pub fn keep(s: &[u8], ranks: &[u8], memo: &mut [Kept], i: usize, e: usize, d: usize, run: usize)
    requires { Memo (ranked ranks.now s.now) memo.old × (i < length s.now) × Slot (ranked ranks.now s.now) i e d run }
    ensures { Memo (ranked ranks.now s.now) memo.new }
{
    if e < 16 {
        return;
    }
    if s.len() <= 65535 {
        memo[slot_for(i, e)] = Kept {
            place: i as u16,
            edge: e as u16,
            distance: d as u16,
            run: run as u16,
        };
    }
}

// How far i and i + d agree: as was known, or as far as both agree with a third place.
pub fn best(shared: usize, edge: usize, e: usize) -> usize
    ensures { (result ≡ shared) ⊎ ((result ≤ edge) × (result ≤ e)) }
{
    shared.max(edge.min(e))
}
