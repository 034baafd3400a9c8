// Places in pages behind the first of their table, on 256 pages: inode 41 begins at word 1,152 and inode 42 at 1,168, the descriptors at
// 1,536 and that of page 64 at 2,048, slot 64 at 4,608, slot 70 at 4,704 and slot 71 at 4,720.
use crate::images::{Violation, compare_edits, large_base};
use std::test::Fail;

// The name of slot 71. The number of slot 70: past the last inode, and a free one's; its name is slot 64's; its pointer is to the last
// slot, and past it. Inode 41 has another's number, and a size without pages; inode 42 a page fewer than its size takes. Page 5 has
// another kind, page 6 the offset of page 4, and page 64 an owner and another kind.
const PLACES: [Violation<'static>; 12] = [
    (&[(4_722, 0)], "damaged 6 71\n"),
    (&[(4_704, 65)], "damaged 5 70\n"),
    (&[(4_704, 64)], "damaged 7 64\n"),
    (&[(4_706, 0x32_336E_0003), (4_707, 0)], "damaged 8 70\n"),
    (&[(4_705, 7_968)], "damaged 3 70\n"),
    (&[(4_705, 7_969)], "damaged 3 70\n"),
    (&[(1_155, 3)], "damaged 7 41\n"),
    (&[(1_154, 0x100_0000_0000)], "damaged 12 41\n"),
    (&[(1_170, 24_577)], "damaged 12 42\n"),
    (&[(1_577, 2)], "damaged 10 5\n"),
    (&[(1_586, 1)], "damaged 12 42\n"),
    (&[(2_048, 2), (2_049, 1)], "damaged 10 64\n"),
];

#[test]
fn places_past_the_first_page(rt: HostRuntime) -> Result<(), Fail> {
    let base = large_base(rt.alloc())?;
    compare_edits(rt.alloc(), base.as_slice(), &PLACES)
}
