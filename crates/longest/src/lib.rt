// The longest Lyndon substrings of a pattern, which are its longest factors, measured: the first of them, how many there are, and the run of its group.
#![tactic(auto)]

ghost use Rattle.std.specs.Prelude.{◌≡◌, ◌+◌, ◌<◌};
ghost use Rattle.ranks.specs.Ranks.{ranked};
ghost use Rattle.longest.specs.Best.{better_of, run_of, Measures};

use scan::groups;
use std::cmp::Ordering;
use symbols::Ranking;

// The first of the longest Lyndon substrings, and how many there are.
#[derive(Clone, Copy)]
pub struct Longest {
    pub start: usize,
    pub length: usize,
    pub count: usize,
}

// What is the longest when a group joins what was seen before it.
pub fn better(best: Longest, start: usize, length: usize, power: usize) -> Longest
    requires { best.count + power < 18446744073709551616 }
    ensures { result ≡ better_of best start length power }
{
    match best.length.cmp(&length) {
        Ordering::Less => Longest {
            start,
            length,
            count: power,
        },
        Ordering::Equal => Longest {
            start: best.start,
            length,
            count: best.count + power,
        },
        Ordering::Greater => best,
    }
}

// How many of the longest words stand in the first group that has them, when a group joins what was seen before it.
pub fn first_run(run: usize, longest: usize, length: usize, power: usize) -> usize
    ensures { result ≡ run_of run longest length power }
{
    if longest < length {
        return power;
    }
    run
}

// The longest Lyndon substrings, and how many of them stand in the first group that has them.
#[derive(Clone, Copy)]
pub struct LongestRun {
    pub found: Longest,
    pub run: usize,
}

pub fn measure(s: &[u8], ranks: Ranking) -> LongestRun
    ensures { Measures (ranked ranks.entry.list.now s.now) result.found result.run }
{
    let mut best = Longest {
        start: 0,
        length: 0,
        count: 0,
    };
    let mut run = 0;
    for g in groups(s, ranks, 0) {
        run = first_run(run, best.length, g.length, g.power);
        best = better(best, g.start, g.length, g.power);
    }
    LongestRun { found: best, run }
}
