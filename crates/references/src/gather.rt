// Gathering the references of a segment.
//
// The taken blocks of a segment are found by the set bits of the row's words. The header of each is tested, and
// its references are put behind those of the blocks before it. Where all 32 blocks of a word are taken and small, they
// are gathered together (beside).
ghost use Rattle.std.specs.Prelude.{◌≡◌, ◌+◌, ◌*◌, ◌<◌, ◌≤◌, [], length};
ghost use Rattle.model.specs.Word.{part};
ghost use Rattle.model.specs.Class.{blocks};
ghost use Rattle.model.specs.Layout.{block_at};
ghost use Rattle.model.specs.View.{block_of};
ghost use Rattle.taken.specs.Row.{TakenRow};
ghost use Rattle.references.specs.Gather.{header_right, Adding, Added, GatheredBelow, Of, AtBlock, AtWord, AtFull, From};

use crate::refs::Refs;
use arena::block_of;
use model::BlockIndex;
use words::class::{blocks, class_of};
use words::fields::{header_n, header_r};
use words::handles::offset;

// A segment of an arena, with the arena's taken row: its number, its class, and the number of segments. Nothing compares or
// prints one.
#[derive(Clone, Copy)]
pub struct Member<'a> {
    pub arena: &'a [u32],
    pub row: &'a [u32; 8192],
    pub n: u32,
    pub s: u32,
    pub class: u32,
    ghost of: { Of arena.now n s class },
    ghost taken: { TakenRow arena.now row.now },
}

pub fn header_right(block: &[u32], class: u32) -> bool
    requires { 0 < length block.now }
    ensures { result ≡ header_right class block.now }
{
    let w = block[0];
    let n = header_n(w);
    class_of(n) == class && header_r(w) <= n
}

// Puts the references of a block, if its header is right.
fn add_block<'r>(block: &[u32], class: u32, refs: Refs<'r>) -> Option<Refs<'r>>
    requires { Adding class block.now refs }
    ensures { Added class block.now refs.entry result }
{
    if !header_right(block, class) {
        return None;
    }
    Some(refs.put(block, header_r(block[0]) as usize))
}

// Those that gather give None where a header is wrong.
impl<'a> Member<'a> {
    pub fn block(self, k: u32) -> &'a [u32]
        requires { k < blocks self.class }
        ensures { result.now ≡ block_of self.entry.arena.now self.entry.s k }
    {
        block_of(self.arena, self.n, self.s, self.class, BlockIndex(k))
    }

    // So many words of the arena, from block k on.
    fn words_from(self, k: u32, count: usize) -> &'a [u32]
        requires { From self.arena.now self.n self.s self.class k count }
        ensures { result.now ≡ part self.entry.arena.now (block_at self.entry.n self.entry.s self.entry.class k) count }
    {
        let from = offset(self.n, self.s, self.class, BlockIndex(k)).0;
        &self.arena[from..from + count]
    }

    fn gather_block<'r>(self, k: u32, refs: Refs<'r>) -> Option<Refs<'r>>
        requires { AtBlock self.arena.now self.s k refs }
        ensures { GatheredBelow self.entry.arena.now self.entry.s (k + 1) result }
    {
        add_block(self.block(k), self.class, refs)
    }

    // The blocks of a word, of which all are taken, of class 3 or 4.
    fn gather_full<'r>(self, j: u32, refs: Refs<'r>) -> Option<Refs<'r>>
        requires { AtFull self.arena.now self.s self.class j refs }
        ensures { GatheredBelow self.entry.arena.now self.entry.s (32 * j + 32) result }
    {
        if self.class == 3 {
            refs.put_beside(self.words_from(32 * j, 64), 2, self.class)
        } else {
            refs.put_beside(self.words_from(32 * j, 128), 4, self.class)
        }
    }

    // The blocks of a word's set bits.
    fn gather_bits<'r>(self, j: u32, w: u32, mut refs: Refs<'r>) -> Option<Refs<'r>>
        requires { AtWord self.arena.now self.s j w refs }
        ensures { GatheredBelow self.entry.arena.now self.entry.s (32 * j + 32) result }
    {
        let mut left = w;
        while left != 0 {
            refs = self.gather_block(32 * j + left.trailing_zeros(), refs)?;
            left &= left - 1;
        }
        Some(refs)
    }

    fn gather_word<'r>(self, j: u32, w: u32, refs: Refs<'r>) -> Option<Refs<'r>>
        requires { AtWord self.arena.now self.s j w refs }
        ensures { GatheredBelow self.entry.arena.now self.entry.s (32 * j + 32) result }
    {
        if w == u32::MAX && self.class <= 4 {
            self.gather_full(j, refs)
        } else {
            self.gather_bits(j, w, refs)
        }
    }

    // All blocks.
    pub fn gather<'r>(self, mut refs: Refs<'r>) -> Option<Refs<'r>>
        requires small { self.class ≤ 7 }
        requires none { refs ≡ [] }
        ensures { GatheredBelow self.entry.arena.now self.entry.s (blocks self.entry.class) result }
    {
        let row = self.row;
        let at = 1 + 64 * self.s as usize;
        let words = blocks(self.class).div_ceil(32) as usize;
        for (j, &w) in row[at..at + words].iter().enumerate() {
            refs = self.gather_word(j as u32, w, refs)?;
        }
        Some(refs)
    }
}
