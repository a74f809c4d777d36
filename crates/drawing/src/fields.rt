// Reading and writing a field of a block, be it a reference or a plain word.
ghost use Rattle.drawing.specs.Fields.{ReadField, WriteField};

use crate::block::Field;
use crate::look::judged;
use model::{Handle, Refusal};

pub fn read(arena: &[u32], h: Handle, field: Field) -> Result<u32, Refusal>
    ensures { ReadField arena.now h.0 field result arena.now }
{
    let mut row = [0u32; 8192];
    let block = judged(arena, &mut row)?.block(h)?;
    Ok(block.words[block.place(field)?])
}

// Whether the block has such a field is asked before whether it may be v: "the lowest number that applies".
pub fn write(arena: &mut [u32], h: Handle, field: Field, v: u32) -> Result<(), Refusal>
    ensures { WriteField arena.old h.0 field v result arena.new }
{
    let mut row = [0u32; 8192];
    let judged = judged(arena, &mut row)?;
    let block = judged.block(h)?;
    let at = block.at.0 + block.place(field)?;
    if !judged.may_hold(field, v) {
        return Err(Refusal::BadReference);
    }
    arena[at] = v;
    Ok(())
}
