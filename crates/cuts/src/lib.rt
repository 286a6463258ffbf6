// Where the factors of a stored and of an edited pattern end and start around an edit. Refusals and rows are left to the crates above.
#![tactic(auto)]

ghost use Rattle.std.specs.Prelude.{◌≡◌, ◌+◌, ◌*◌, ◌<◌, length, take};
ghost use Rattle.ranks.specs.Ranks.{ranked};
ghost use Rattle.words.specs.Factors.{factors};
ghost use Rattle.words.specs.Tables.{lyndon_array};
ghost use Rattle.cuts.specs.Bounds.{EndsBy, ends_with, start_with};

// How many leading factors end at or before a place, and where the last of them ends.
#[derive(Clone, Copy)]
pub struct Ends {
    pub count: usize,
    pub end: usize,
}

// Of a pattern with its Lyndon array.
pub fn stored_ends(s: &[u8], ranks: &[u8], table: &[u16], q: usize) -> Ends
    requires { take (length s.now) table.now ≡ lyndon_array (ranked ranks.now s.now) }
    ensures { EndsBy (factors (ranked ranks.now s.now)) q result.count result.end }
{
    let mut count = 0;
    let mut end = 0;
    // A turn goes from one factor to the next, by the length that the table has: `end += table[end]` is the step of no range.
    while end < s.len() {
        let next = end + table[end] as usize;
        if q < next {
            return Ends { count, end };
        }
        count += 1;
        end = next;
    }
    Ends { count, end }
}

// Of any pattern, group by group: the ends by place q, when a group from i on joins the factors before it.
#[tactic(auto, unfolding(crate::specs::Bounds::ends_with))]
pub fn ends_with(ends: Ends, q: usize, i: usize, length: usize, power: usize) -> Ends
    requires { (0 < length) × (i + power * length < 18446744073709551616) × (ends.count + power < 18446744073709551616) }
    ensures { result ≡ ends_with ends q i length power }
{
    if q < i {
        return ends;
    }
    let end = i + power * length;
    if end <= q {
        return Ends {
            count: ends.count + power,
            end,
        };
    }
    let k = (q - i) / length;
    Ends {
        count: ends.count + k,
        end: i + k * length,
    }
}

// The first start of a factor at or after q, or the end of the last, when a group from i on joins the factors before it.
#[tactic(auto, unfolding(crate::specs::Bounds::start_with))]
pub fn start_with(place: usize, q: usize, i: usize, length: usize, power: usize) -> usize
    requires { (0 < length) × (i + power * length + length < 18446744073709551616) }
    ensures { result ≡ start_with place q i length power }
{
    if q <= i {
        return place;
    }
    let end = i + power * length;
    if end <= q {
        return end;
    }
    i + (q - i + length - 1) / length * length
}
