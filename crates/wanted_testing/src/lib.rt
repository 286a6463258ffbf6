// Whether the stretches of a wanted reach table nest. That a table whose stretches do not nest is no reach table is proved in `realisation`;
// refusals are the caller's concern.
#![tactic(auto)]

ghost use Rattle.std.specs.Prelude.{◌≤◌, length};
ghost use Rattle.realisation.specs.Nested.{NestsTold};
ghost use Rattle.refusals.specs.Refusals.{max_wanted};

// Whether the stretches nest, from the right: those behind a start, which nest, follow one another up to the end of its stretch, or one crosses it.
// Each is stepped over at most once, since from then on it lies inside the one that was tested, which is stepped over whole: this is linear.
pub fn nests(table: &[u16]) -> bool
    requires { length table.now ≤ max_wanted }
    ensures { NestsTold table.now result }
{
    let n = table.len();
    for start in (0..n).rev() {
        let end = start + table[start] as usize;
        if end == start {
            return false;
        }
        if n < end {
            return false;
        }
        let mut next = start + 1;
        // no range: how long each stretch is, its entry says
        while next < end {
            next += table[next] as usize;
            if end < next {
                return false;
            }
        }
    }
    true
}
