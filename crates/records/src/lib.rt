// Groups as records, stored to a lent row of records from a row of numbers.
// The only code that writes to a slice of structs.
#![tactic(auto)]

ghost use Rattle.std.specs.Prelude.{◌≡◌, ◌<◌, ◌≤◌, ◌+◌, ◌*◌, length};
ghost use Rattle.records.specs.Groups.{group_at, filled};

// A group of equal neighbouring factors: its start, the length of one factor, and how many there are.
#[repr(C)]
#[derive(Clone, Copy)]
pub struct Group {
    pub start: u16,
    pub length: u16,
    pub power: u16,
}

// The i-th group of three numbers each.
pub fn group_at(numbers: &[u16], i: usize) -> Group
    requires { 3 * i + 2 < length numbers.now }
    ensures { result ≡ group_at i numbers.now }
{
    Group {
        start: numbers[3 * i],
        length: numbers[3 * i + 1],
        power: numbers[3 * i + 2],
    }
}

// Stores the first groups of the numbers to the front of the row.
pub fn store_all(row: &mut [Group], numbers: &[u16], count: usize)
    requires { (count ≤ length row.old) × (3 * count ≤ length numbers.now) }
    ensures { row.new ≡ filled count numbers.now row.old }
{
    for i in 0..count {
        row[i] = group_at(numbers, i);
    }
}
