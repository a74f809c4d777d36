// A judged arena, and what its taken row tells: the standing of a handle, the block of a taken one, the values that a reference may have.
ghost use Rattle.std.specs.Prelude.{◌≡◌, ◌<◌, length, get_or, replicate};
ghost use Rattle.model.specs.Below.{all_below};
ghost use Rattle.model.specs.Layout.{segment_of, index_of};
ghost use Rattle.model.specs.Standing.{is_block, is_taken, none_or_taken, taken_count, standing_of};
ghost use Rattle.model.specs.Sound.{sound};
ghost use Rattle.model.specs.declared.Refusal.TheVariants.{Unsound, NoBlock};
ghost use Rattle.drawing.specs.Refusal.{Tested};
ghost use Rattle.drawing.specs.Look.{Ruled, BlockOf};

use crate::block::{Block, Field};
use arena::{class, segments};
use judge::judge;
use model::{Handle, Refusal, Standing};
use taken::ask::{all_none_or_taken, is_taken, none_or_taken, taken_count};
use words::class::{block_words, blocks};
use words::handles::{index, offset, segment};

// A sound arena with its taken row. Nothing compares or prints one.
#[derive(Clone, Copy)]
pub struct Sound<'a, 'r> {
    pub arena: &'a [u32],
    pub row: &'r [u32; 8192],
    ghost ruled: { Ruled arena.now row.now },
}

// Refusal 2 unless the arena is sound. The row is lent with all its words 0. Each call lends its own: 32 KB within a `Sound` would
// be copied where it is moved.
pub fn judged<'a, 'r>(arena: &'a [u32], row: &'r mut [u32; 8192]) -> Result<Sound<'a, 'r>, Refusal>
    requires { row.old ≡ replicate 8192 0 }
    ensures { Tested Unsound (sound arena.now) (λ j. j.arena.now ≡ arena.now) result }
{
    if judge(arena, row) {
        Ok(Sound { arena, row })
    } else {
        Err(Refusal::Unsound)
    }
}

impl<'a> Sound<'a, '_> {
    ghost use Rattle.drawing.specs.Fields.{may_hold};

    // What a field may be: a reference 0 or the handle of a taken block, a plain word anything.
    #[tactic(auto, using(taken::proofs::RowLaws::row_none_or_taken_is))]
    pub fn may_hold(&self, field: Field, v: u32) -> bool
        ensures { result ≡ may_hold self.now.arena.now field v }
    {
        match field {
            Field::Reference(_) => none_or_taken(self.row, v),
            Field::Plain(_) => true,
        }
    }

    // Each of some words is 0 or the handle of a taken block.
    pub fn all_none_or_taken(&self, words: &[u32]) -> bool
        ensures { result ≡ all_below (length words.now) (λ p. none_or_taken self.now.arena.now (get_or words.now p 0)) }
    {
        all_none_or_taken(self.row, words)
    }

    // How many blocks are taken.
    pub fn taken_count(&self) -> u32
        ensures { result ≡ taken_count self.now.arena.now }
    {
        taken_count(self.row, segments(self.arena))
    }

    // The block of a handle, and refusal 5 unless it is taken.
    pub fn block(&self, h: Handle) -> Result<Block<'a>, Refusal>
        ensures { Tested NoBlock (is_taken self.now.arena.now h.0) (λ b. BlockOf self.now.arena.now h.0 b.words.now b.at.0) result }
    {
        if !is_taken(self.row, h.0) {
            return Err(Refusal::NoBlock);
        }
        let s = segment(h);
        let class = class(self.arena, s);
        let at = offset(segments(self.arena), s, class, index(h));
        let end = at.0 + block_words(class) as usize;
        Ok(Block {
            at,
            words: &self.arena[at.0..end],
        })
    }

    // There is such a block: its segment is one of the arena's and not in the pool, and its index not past the class's blocks.
    #[tactic(auto, unfolding(model::specs::Standing::is_block))]
    fn is_block(&self, h: Handle) -> bool
        requires { 0 < h.0 }
        ensures { result ≡ is_block self.now.arena.now (segment_of h.0) (index_of h.0) }
    {
        let s = segment(h);
        if segments(self.arena) <= s {
            return false;
        }
        let class = class(self.arena, s);
        class != 0 && index(h).0 < blocks(class)
    }

    #[tactic(auto, using(soundness::proofs::Taken::standing_taken), unfolding(model::specs::Standing::standing_of, model::specs::Standing::is_taken))]
    pub fn standing(&self, h: Handle) -> Standing
        ensures { result ≡ standing_of self.now.arena.now h.0 }
    {
        if h.0 == 0 {
            return Standing::None;
        }
        match self.block(h) {
            Ok(block) => Standing::Taken(block.shape()),
            Err(_) if self.is_block(h) => Standing::Free,
            Err(_) => Standing::Outside,
        }
    }
}
