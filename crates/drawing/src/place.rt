// Where the plain words of a block stand in the arena: for a caller that cannot be handed a part of it.
ghost use Rattle.model.specs.Numbers.{answer_number};
ghost use Rattle.drawing.specs.Place.{PlainPlace, first_word, word_count};

use crate::look::judged;
use model::{Handle, Refusal, Shape, WordOffset};

// The offset of the first plain word and how many there are.
#[derive(Clone, Copy, Debug, Default, PartialEq, Eq)]
pub struct Place {
    pub at: WordOffset,
    pub count: u32,
}

pub fn plain_place(arena: &[u32], h: Handle) -> Result<Place, Refusal>
    ensures { PlainPlace arena.now h.0 (answer_number result) (first_word result) (word_count result) }
{
    let mut row = [0u32; 8192];
    let block = judged(arena, &mut row)?.block(h)?;
    let Shape { n, r, .. } = block.shape();
    Ok(Place {
        at: WordOffset(block.at.0 + 1 + r as usize),
        count: n - r,
    })
}
