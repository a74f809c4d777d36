// Gathering: the references of a run of blocks, end to end in a row.
ghost use Rattle.std.specs.Prelude.{◌≡◌, ◌+◌, ◌<◌, ◌≤◌, length};
ghost use Rattle.model.specs.Below.{words_below};
ghost use Rattle.model.specs.View.{r_in, reference_in};
ghost use Rattle.trace.specs.Gather.{references_of, Masked, Taken, Room, Begins, First, Queued, Gathered};

use arena::{block_of, class};
use model::Handle;
use words::fields::header_r;
use words::handles::{index, segment};

// The reference in a field, and some word of the block where it has no such field: a block's words are a
// power of two, so that their mask leads back into the block, with no branch.
fn reference(block: &[u32], f: usize) -> u32
    requires { Masked block.now × (f < 8) }
    ensures { 1 + f < length block.now → result ≡ reference_in block.now f }
{
    let mask = block.len() - 1;
    block[(1 + f) & mask]
}

// Copies a block's first n references to where a row begins, and where it has fewer, something else behind them.
fn first(block: &[u32], row: &mut [u32], n: usize)
    requires { Masked block.now × (n ≤ 8) × (n ≤ length row.old) }
    ensures { First block.now n row.new }
{
    // By number: a field is asked for by it.
    for f in 0..n {
        row[f] = reference(block, f);
    }
}

// Copies a block's references to where a row begins, and says how many they are. Most blocks have few: for them
// four or eight at once spare a loop whose length cannot be foretold.
fn references(block: &[u32], row: &mut [u32]) -> usize
    requires { Room block.now row.old }
    ensures { Begins (words_below (r_in block.now) (reference_in block.now)) result row.new }
{
    let r = header_r(block[0]) as usize;
    if r <= 4 {
        first(block, row, 4);
    } else if r <= 8 {
        first(block, row, 8);
    } else {
        row[..r].copy_from_slice(&block[1..1 + r]);
    }
    r
}

// The same of the block of a handle: its own words, cut from the middle of the arena. No block has more
// than 1,023 references.
fn gather_block(arena: &[u32], n: u32, h: u32, row: &mut [u32]) -> usize
    requires { Taken arena.now n h × (1023 ≤ length row.old) }
    ensures { Begins (references_of arena.now h) result row.new × (result ≤ 1023) }
{
    let s = segment(Handle(h));
    let i = class(arena, s);
    references(block_of(arena, n, s, i, index(Handle(h))), row)
}

// How many blocks were taken off a queue, and where their references end in the row.
#[derive(Clone, Copy, Debug, PartialEq, Eq)]
pub struct Run {
    pub blocks: usize,
    pub end: usize,
}

// Gathers the references of the blocks of a queue, until there are none left or the row could not take
// another 1,023.
pub fn gather(arena: &[u32], n: u32, queue: &[u32], row: &mut [u32]) -> Run
    requires { Queued arena.now n queue.now × (1023 ≤ length row.old) }
    ensures { Gathered arena.now queue.now result.blocks result.end row.new }
{
    let mut end = 0;
    for (blocks, &h) in queue.iter().enumerate() {
        let rest = &mut row[end..];
        if rest.len() < 1023 {
            return Run { blocks, end };
        }
        end += gather_block(arena, n, h, rest);
    }
    Run {
        blocks: queue.len(),
        end,
    }
}
