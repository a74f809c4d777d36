// The row of marks: a bit for each handle, where crate arena's Rows has it. That of handle 0 is always set, so 0
// counts as marked with no test of its own.
ghost use Rattle.std.specs.Prelude.{[], ◌+◌, ◌*◌, ◌≤◌, length};
ghost use Rattle.arena.specs.Rows.{Marked};
ghost use Rattle.trace.specs.Marks.{Row, Mark};

use words::bits::{bit, with_bit};

// No block of an arena of n segments is marked.
pub fn clear(marks: &mut [u32], n: u32)
    requires { 1 + 64 * n ≤ length marks.old }
    ensures { Marked n marks.new [] }
{
    let end = 1 + 64 * n as usize;
    marks[..end].fill(0);
    marks[0] = 0x8000_0000;
}

// Marks the block of a handle, and says whether that is new: it is not for handle 0 and for a block that is
// marked already. What is stored does not wait for what is said.
pub fn mark(marks: &mut [u32], h: u32) -> bool
    requires { Row marks.old h }
    ensures { Mark marks.old h result marks.new }
{
    let x = h as usize + 31;
    let at = x / 32;
    let b = (x % 32) as u32;
    let w = marks[at];
    marks[at] = with_bit(w, b);
    !bit(w, b)
}
