// Hands pairs of sheets to `newer` and prints for each the number, and length, gap byte and revision of the part that comes back.
// `rt ci` runs it and holds what it prints to the file `stdout`: no other compiled program calls that function.
#![tactic(auto)]

use sheet::Sheet;
use std::io;

// How many bytes P1 has in edition 2.
const SIZE: usize = 85;

// P1 with this gap byte and this revision: contents, facts, jobs, events, bounds.
fn p1(gap: u8, revision: u8) -> [u8; SIZE] {
    let mut b = *b"\x02\x04\
          \x01\x00\x1a\x00\x09\x00\
          \x02\x00\x23\x00\x08\x00\
          \x03\x00\x2b\x00\x12\x00\
          \x04\x00\x3d\x00\x18\x00\
          \x03\x64\x00\x01\x00\x00\x01\x00\x02\
          \x0a\x00\x00\x00\x14\x00\x00\x00\
          \x00\x00\x00\x00\x01\x00\x00\x02\x01\x01\x00\x01\x01\x01\x01\x01\x02\x02\
          \x01\x00\x05\x00\x05\x00\x02\x01\x00\x00\x00\x00\x04\x03\x03\x00\x03\x00\x05\x04\x00\x00\x00\x00";
    b[Sheet::GAP_AT] = gap;
    b[Sheet::REVISION_AT] = revision;
    b
}

fn show(rt: &impl Print, first: &[u8], second: &[u8]) -> io::Result<()> {
    let mut number = 1u8;
    let part = newer::newer(first, second, &mut number);
    let gap = sheet::byte_at(part, Sheet::GAP_AT);
    let revision = sheet::two_at(part, Sheet::REVISION_AT);
    println!(rt; "{number} {} {gap} {revision}", part.len())
}

fn main(rt: HostRuntime) -> io::Result<()> {
    show(&rt, &p1(0, 1), &p1(1, 2))?;
    show(&rt, &p1(0, 2), &p1(1, 1))?;
    show(&rt, &p1(0, 1), &p1(0, 1))?;
    show(&rt, &p1(0, 1), &p1(2, 1))?;
    show(&rt, &p1(61, 1), &p1(0, 2))?;
    show(&rt, &p1(0, 1), &p1(61, 2))
}
