// Runs the public calls under other symbol orders than byte order: the reverse order, one that moves a few symbols, and one that mixes all; then
// what is no order, refusal 13, for each call and beside each other refusal. It prints as `vectors` does, by `show`, with the digest of the order,
// and its file `stdout` was computed in the same way, from the words on ranks.
#![tactic(auto)]

mod comparisons;
mod edits;
mod no_order;
mod orders;
mod parts;
mod patterns;
mod tables;

use std::io;

fn run(rt: &impl Print, name: &[u8], order: &[u8]) -> io::Result<()> {
    show::heading(rt, name)?;
    patterns::run(rt, order)?;
    parts::run(rt, order)?;
    comparisons::run(rt, order)?;
    edits::run(rt, order)?;
    tables::run(rt, order)
}

fn main(rt: HostRuntime) -> io::Result<()> {
    let mut order = [0; 256];
    orders::stepping(&mut order, 255, 255);
    run(
        &rt,
        b"the reverse order: the rank of byte b is 255 - b",
        &order,
    )?;
    orders::moved(&mut order);
    run(
        &rt,
        b"byte order, but b before c before a, and 80 before 7F",
        &order,
    )?;
    orders::stepping(&mut order, 13, 167);
    run(
        &rt,
        b"all mixed: the rank of byte b is 13 + 167 b, modulo 256",
        &order,
    )?;
    no_order::run(&rt)
}
