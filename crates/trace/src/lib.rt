// The trace of a collection: it lists the blocks that are reachable from the roots, in the order of demand 3.
//
// Breadth first, with the lent list as the queue. The roots are put on the list one by one. Then, while the
// queue is not empty and not every taken block is listed, blocks are taken off its head: their references are
// gathered end to end in a row (gather), those that are 0 or marked are dropped from the row (list), and the
// rest is put on the list's end. A block is marked (marks) when it is put on, not when it is taken off, so none
// is listed twice. No branch depends on what the references are. The arena is only read.
//
// Proved: the list is that of demand 3, the later words of the lent list are unchanged, and exactly the
// listed blocks are marked. Functions speak of lists of handles (crate ways, Put); only the last loop names
// the invariant of the order (crate ways, Trace).
#![tactic(auto)]

ghost use Rattle.std.specs.Prelude.{◌≡◌, ◌&&◌, ltb};
ghost use Rattle.trace.specs.Trace.{Traceable, Traced, Turn, Turned};

use crate::gather::gather;
use crate::list::{keep_new, put_roots};
use arena::segments;

pub mod gather;
pub mod list;
pub mod marks;

// Where the queue begins and ends in the list.
#[derive(Clone, Copy, Debug, PartialEq, Eq)]
pub struct Queue {
    pub head: usize,
    pub tail: usize,
}

impl Queue {
    // Whether the trace goes on: there are blocks in the queue, and of the taken blocks, `most` in all, some are not
    // listed yet. Once all are listed nothing can be put on, and the rest of the queue need not be read.
    fn goes_on(self, most: usize) -> bool
        ensures { result ≡ (ltb self.head self.tail && ltb self.tail most) }
    {
        self.head < self.tail && self.tail < most
    }
}

// One turn: takes blocks off the queue, at least one, and puts on what they refer to. List and marks are passed one by one, as
// `keep_new` takes them, which docs/STATEMENTS.md names.
fn turn(arena: &[u32], queue: Queue, list: &mut [u32], marks: &mut [u32], row: &mut [u32]) -> Queue
    requires { Turn arena.now list.old queue.head queue.tail marks.old row.old }
    ensures { Turned arena.now list.old queue.head queue.tail result.head result.tail list.new marks.new }
{
    let Queue { head, tail } = queue;
    let run = gather(arena, segments(arena), &list[head..tail], row);
    let kept = keep_new(row, run.end, marks);
    list[tail..tail + kept].copy_from_slice(&row[..kept]);
    Queue {
        head: head + run.blocks,
        tail: tail + kept,
    }
}

// Lists the reachable blocks in the first words of the list, and says how many there are. The marks may
// hold anything before; afterwards they are those of the listed blocks. `most` is the number of taken blocks.
pub fn trace(arena: &[u32], roots: &[u32], list: &mut [u32], marks: &mut [u32], most: usize) -> u32
    requires { Traceable arena.now roots.now list.old marks.old most }
    ensures { Traced arena.now roots.now list.old result list.new marks.new }
{
    let mut row = [0; 4096];
    let tail = put_roots(segments(arena), roots, list, marks);
    let mut queue = Queue { head: 0, tail };
    while queue.goes_on(most) {
        queue = turn(arena, queue, list, marks, &mut row);
    }
    queue.tail as u32
}
