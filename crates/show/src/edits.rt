// Makes an edit and prints what is given and answered, as `calls.rt` does. Rows have room for so many groups and places.
use crate::calls::OLD;
use edit::{Counts, MAX_MIDDLE};
use edit_core::core;
use refusals::{MAX_PATTERN, Refusal};
use splicing::Edit;
use std::io;

fn answer(rt: &impl Print, a: Result<Counts, Refusal>) -> io::Result<()> {
    let Ok(counts) = a else {
        return crate::refusal(rt, a);
    };
    crate::text(rt, b":")?;
    crate::number(rt, b"kept", counts.kept as u64)?;
    crate::number(rt, b"resume", counts.resume as u64)?;
    crate::number(rt, b"groups", counts.groups as u64)?;
    crate::number(rt, b"length", counts.length as u64)?;
    crate::number(rt, b"starts", counts.starts as u64)
}

// The values of an edit stand side by side, as in the public call, so that a case is one line.
pub fn edit_with(
    rt: &impl Print,
    pattern: &[u8],
    order: &[u8],
    array: &[u16],
    last: &[u16],
    from: usize,
    to: usize,
    block: &[u8],
    groups: usize,
    places: usize,
) -> io::Result<()> {
    crate::text(rt, b"edit")?;
    crate::word(rt, pattern)?;
    crate::order(rt, order)?;
    crate::number(rt, b"from", from as u64)?;
    crate::number(rt, b"to", to as u64)?;
    crate::text(rt, b" block")?;
    crate::word(rt, block)?;
    let mut space = [OLD; 3 * MAX_MIDDLE];
    let room = groups.min(MAX_MIDDLE);
    let middle = &mut space[..3 * room];
    let mut more = [OLD; MAX_PATTERN];
    let starts = &mut more[..places.min(MAX_PATTERN)];
    let edit = Edit {
        pattern,
        from,
        to,
        block,
    };
    let a = core(edit, order, array, last, room, middle, starts);
    answer(rt, a)?;
    crate::row(rt, b"middle", middle)?;
    crate::row(rt, b"places", starts)?;
    crate::text(rt, b"\n")
}

// With the pattern's own tables.
pub fn edit(
    rt: &impl Print,
    pattern: &[u8],
    order: &[u8],
    from: usize,
    to: usize,
    block: &[u8],
    groups: usize,
    places: usize,
) -> io::Result<()> {
    let mut array = [0; MAX_PATTERN];
    let mut last = [0; MAX_PATTERN];
    let _ = lyndon_tables::lyndon_array(pattern, order, &mut array);
    let _ = lyndon_tables::last_factors(pattern, order, &mut last);
    edit_with(
        rt, pattern, order, &array, &last, from, to, block, groups, places,
    )
}
