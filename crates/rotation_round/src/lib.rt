// What follows a group of the pattern, round the pattern's end, compared with the group's word.
// The pattern is not written out twice: the bytes that are left behind the group come first, then the pattern's front.
#![tactic(auto)]

ghost use Rattle.std.specs.Prelude.{◌≡◌, ◌+◌, ◌*◌, take, drop};
ghost use Rattle.ranks.specs.Ranks.{ranked};
ghost use Rattle.comparing.specs.Compared.{smaller_of};
ghost use Rattle.scan.specs.Group.{NextGroup};
ghost use Rattle.words.specs.Order.{smaller};
ghost use Rattle.words.specs.Rotation.{rotation};

use comparing::{compare, shared_length};
use std::cmp::Ordering;
use symbols::Ranking;

// How the symbols that follow the group at i, round the end of the pattern, are ordered to its word: equal where they are the word once more.
#[tactic(auto, using(crate::proofs::Bytes::group_inside, crate::proofs::Bytes::word_inside))]
pub fn compare_round(s: &[u8], ranks: Ranking, i: usize, size: usize, power: usize) -> Ordering
    requires { NextGroup (ranked ranks.list.now s.now) i size power }
    ensures { smaller_of result ≡ smaller (take size (rotation (ranked ranks.entry.list.now s.now) (i + power * size))) (take size (drop i (ranked ranks.entry.list.now s.now))) }
{
    let end = i + power * size;
    let rest = s.len() - end;
    if size <= rest {
        return Ordering::Less;
    }
    if shared_length(s, end, rest, i, rest) < rest {
        return Ordering::Less;
    }
    let front = size - rest;
    let from = i + rest;
    let to = i + size;
    compare(&s[..front], &s[from..to], ranks).ordering
}
