// Runs the public calls but edits, listings and blocks in byte order where they refuse, and next to it: short rows, the empty pattern, positions,
// wrong tables, repeated words, several refusals at once, the longest patterns, the longest strings compared, wanted tables. It prints as `vectors`
// does, by `show`, and its file `stdout` was computed in the same way. What is no order, refusal 13, is left to `order_vectors`.
#![tactic(auto)]

mod empty;
mod limits;
mod positions;
mod repeated;
mod several;
mod short_rows;
mod wanted;
mod wrong_tables;

use order_bytes::fill_byte_order;
use std::io;

fn main(rt: HostRuntime) -> io::Result<()> {
    let mut order = [0; 256];
    fill_byte_order(&mut order);
    short_rows::run(&rt, &order)?;
    empty::run(&rt, &order)?;
    positions::run(&rt, &order)?;
    wrong_tables::run(&rt, &order)?;
    repeated::run(&rt, &order)?;
    several::run(&rt, &order)?;
    limits::run(&rt, &order)?;
    wanted::run(&rt, &order)
}
