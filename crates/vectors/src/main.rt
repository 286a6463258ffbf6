// Runs the public calls in byte order on the cases of the papers, their published examples, wanted tables, comparisons, edits, and blocks. `show`
// prints a line a case: the call, what is given, the answer, and the lent row as the call leaves it, for a pattern that is free its reach table;
// entries of 7777, and bytes `.`, are as they were lent. What must be printed, the file `stdout`, was computed from the papers' definitions and the
// words on blocks, apart from this project's code. What a call refuses, but for edits and blocks, is left to `refusal_vectors`, and other orders of
// symbols to `order_vectors`.
#![tactic(auto)]

mod blocks;
mod comparisons;
mod edits;
mod sheet;
mod sources;
mod wanted;

use order_bytes::fill_byte_order;
use std::io;

fn main(rt: HostRuntime) -> io::Result<()> {
    let mut order = [0; 256];
    fill_byte_order(&mut order);
    sheet::run(&rt, &order)?;
    sources::run(&rt, &order)?;
    wanted::run(&rt, &order)?;
    comparisons::run(&rt, &order)?;
    edits::run(&rt, &order)?;
    blocks::run(&rt)
}
