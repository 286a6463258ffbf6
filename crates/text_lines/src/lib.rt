// The passes over the lines of a pattern's listing, which measure and write it; `text_writers` writes a line.
// That the buffer is long enough is the caller's concern.
#![tactic(auto)]

ghost use Rattle.std.specs.Iterator.{YieldsFirstBy, item_count};
ghost use Rattle.std.specs.Prelude.{◌≡◌, ◌≤◌, length};
ghost use Rattle.ranks.specs.Ranks.{ranked};
ghost use Rattle.words.specs.Tables.{suffix_groups};
ghost use Rattle.text.specs.Listing.{lines, listing_by};
ghost use Rattle.text_writers.specs.Text.{text_of};
ghost use Rattle.rows.specs.Written.{Room, Puts, Fits, Writes};
ghost use Rattle.text_lines.specs.Texts.{line_texts, first_size, first_power};

use comparing::shared_length;
use rows::Writer;
use scan::{Stretch, group_from};
use symbols::Ranking;
use text_writers::{HEADER, Line, line_length, write_header, write_line};

// Goes over the lines of a pattern's groups from first to last: the pattern, its ranks, where the next group starts, and that group. Each group is
// found once: as the one ahead, for its word, and then carried over.
#[derive(Drop)]
struct LinesLeft<'a> {
    s: &'a [u8],
    ranks: Ranking<'a>,
    at: usize,
    ahead: Stretch,
    ghost within: { at ≤ length s.now },
    ghost found: { (first_size (suffix_groups (ranked ranks.list.now s.now) at) ≡ ahead.length) × (first_power (suffix_groups (ranked ranks.list.now s.now) at) ≡ ahead.power) },
}

// The lines of a pattern's groups from a place on.
fn lines_left<'a>(s: &'a [u8], ranks: Ranking<'a>, from: usize) -> LinesLeft<'a>
    requires { from ≤ length s.now }
    ensures { (result.s.now ≡ s.now) × (result.ranks.list.now ≡ ranks.entry.list.now) × (result.at ≡ from) }
{
    let ahead = group_from(s, ranks, from);
    LinesLeft {
        s,
        ranks,
        at: from,
        ahead,
    }
}

impl<'a> Iterator for LinesLeft<'a> {
    type Item = Line<'a>;

    ghost next_gives = { YieldsFirstBy (λ l. text_of l) (λ it. line_texts it.s.now (suffix_groups (ranked it.ranks.list.now it.s.now) it.at)) };

    ghost remaining = { item_count (λ it. line_texts it.s.now (suffix_groups (ranked it.ranks.list.now it.s.now) it.at)) };

    fn next(&mut self) -> Option<Line<'a>> {
        let s = self.s;
        let start = self.at;
        if start == s.len() {
            return None;
        }
        let Stretch { length, power } = self.ahead;
        let end = start + length;
        let place = start + power * length;
        let next = group_from(s, self.ranks, place);
        let shared = shared_length(s, start, length, place, next.length);
        self.at = place;
        self.ahead = next;
        Some(Line {
            start,
            word: &s[start..end],
            power,
            shared,
        })
    }
}

// Writes the lines of a pattern's groups from a place on.
fn write_lines(s: &[u8], ranks: Ranking, from: usize, out: &mut Writer)
    requires { (from ≤ length s.now) × Fits (lines s.now (suffix_groups (ranked ranks.list.now s.now) from)) out.old }
    ensures { Writes (lines s.now (suffix_groups (ranked ranks.entry.list.now s.now) from)) out.old out.new }
{
    for line in lines_left(s, ranks, from) {
        write_line(line, out);
    }
}

// The length of these lines.
fn lines_length(s: &[u8], ranks: Ranking, from: usize) -> usize
    requires { (length s.now ≤ 65535) × (from ≤ length s.now) }
    ensures { result ≡ length (lines s.now (suffix_groups (ranked ranks.entry.list.now s.now) from)) }
{
    let mut total = 0;
    for line in lines_left(s, ranks, from) {
        total += line_length(line);
    }
    total
}

// The length of a pattern's listing.
pub fn listing_length(s: &[u8], ranks: Ranking) -> usize
    requires { length s.now ≤ 65535 }
    ensures { result ≡ length (listing_by ranks.entry.list.now s.now) }
{
    HEADER.len() + lines_length(s, ranks, 0)
}

// Writes a pattern's listing to the front of the buffer, and answers its length.
pub fn write_text(s: &[u8], ranks: Ranking, buffer: &mut [u8]) -> usize
    requires { Room (listing_by ranks.list.now s.now) 0 buffer.old }
    ensures { Puts (listing_by ranks.entry.list.now s.now) 0 buffer.old buffer.new result }
{
    let mut out = Writer { buffer, at: 0 };
    write_header(&mut out);
    write_lines(s, ranks, 0, &mut out);
    out.at
}
