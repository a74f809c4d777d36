// Segment by segment, and block by block.
ghost use Rattle.std.specs.Prelude.{◌≡◌, ◌<◌, ◌≤◌, length};
ghost use Rattle.model.specs.Class.{blocks};
ghost use Rattle.model.specs.View.{r_in};
ghost use Rattle.model.specs.Sound.{taken_right};
ghost use Rattle.arena.specs.Inside.{Classed};
ghost use Rattle.taken.specs.Row.{all_words, row_none_or_taken, TakenRow};
ghost use Rattle.references.specs.Gather.{references_in, right_at, segment_right, Judging};

use crate::gather::{Member, header_right};
use crate::refs::Refs;
use arena::{class, segments};
use taken::ask::{all_none_or_taken, is_taken};
use words::class::blocks;
use words::fields::header_r;

// The references of a block, where they stand.
fn references_right(row: &[u32; 8192], block: &[u32]) -> bool
    requires { r_in block.now < length block.now }
    ensures { result ≡ all_words (row_none_or_taken row.now) (references_in block.now) }
{
    let end = 1 + header_r(block[0]) as usize;
    all_none_or_taken(row, &block[1..end])
}

impl Member<'_> {
    // A block that is not taken may be anything.
    fn block_right(self, k: u32) -> bool
        requires { k < blocks self.class }
        ensures { result ≡ right_at self.entry.arena.now self.entry.s k }
    {
        // Its handle, as a number: the row is asked by numbers.
        if !is_taken(self.row, 2048 * self.s + k + 1) {
            return true;
        }
        let block = self.block(k);
        header_right(block, self.class) && references_right(self.row, block)
    }

    fn large_right(self) -> bool
        ensures { result ≡ segment_right self.entry.arena.now self.entry.s }
    {
        (0..blocks(self.class)).all(|k| self.block_right(k))
    }

    // Of small blocks the references are gathered first, and then tested in one row.
    fn small_right(self, words: &mut [u32; 4096]) -> bool
        requires { self.class ≤ 7 }
        ensures { result ≡ segment_right self.entry.arena.now self.entry.s }
    {
        match self.gather(Refs::new(words)) {
            Some(refs) => all_none_or_taken(self.row, refs.as_slice()),
            None => false,
        }
    }
}

fn segment_right(arena: &[u32], row: &[u32; 8192], n: u32, s: u32, words: &mut [u32; 4096]) -> bool
    requires { Judging arena.now row.now n s }
    ensures { result ≡ segment_right arena.now s }
{
    let class = class(arena, s);
    if class == 0 {
        return true;
    }
    let member = Member {
        arena,
        row,
        n,
        s,
        class,
    };
    if class <= 7 {
        return member.small_right(words);
    }
    member.large_right()
}

// Of an arena with its taken row.
pub fn taken_right(arena: &[u32], row: &[u32; 8192]) -> bool
    requires classed { Classed arena.now }
    requires taken_row { TakenRow arena.now row.now }
    ensures { result ≡ taken_right arena.now }
{
    let mut words = [0; 4096];
    let n = segments(arena);
    // No chain: each segment writes into the words, and std says of `all` what it answers where its closure changes nothing.
    for s in 0..n {
        if !segment_right(arena, row, n, s, &mut words) {
            return false;
        }
    }
    true
}
