// Asking: the standing of a handle, the shape of a block, the room of a class.
ghost use Rattle.model.specs.Calls.{AskStanding, AskShape, AskRoom};

use crate::look::judged;
use model::{Handle, Refusal, Shape, Standing};

pub fn standing(arena: &[u32], h: Handle) -> Result<Standing, Refusal>
    ensures { AskStanding arena.now h.0 result arena.now }
{
    let mut row = [0u32; 8192];
    Ok(judged(arena, &mut row)?.standing(h))
}

// The n, r and tag of a taken block.
pub fn shape(arena: &[u32], h: Handle) -> Result<Shape, Refusal>
    ensures { AskShape arena.now h.0 result arena.now }
{
    let mut row = [0u32; 8192];
    Ok(judged(arena, &mut row)?.block(h)?.shape())
}

// How many untaken blocks the segments of a class have.
pub fn room(arena: &[u32], class: u32) -> Result<u32, Refusal>
    ensures { AskRoom arena.now class result arena.now }
{
    let mut row = [0u32; 8192];
    let judged = judged(arena, &mut row)?;
    if !(3..=12).contains(&class) {
        return Err(Refusal::BadShape);
    }
    Ok(judged.room(class))
}
