// Reading and writing a reference of a block.
ghost use Rattle.model.specs.Calls.{ReadReference, WriteReference};

use crate::block::Field;
use crate::fields::{read, write};
use model::{Handle, Refusal};

pub fn read_reference(arena: &[u32], h: Handle, f: u32) -> Result<u32, Refusal>
    ensures { ReadReference arena.now h.0 f result arena.now }
{
    read(arena, h, Field::Reference(f))
}

pub fn write_reference(arena: &mut [u32], h: Handle, f: u32, v: u32) -> Result<(), Refusal>
    ensures { WriteReference arena.old h.0 f v result arena.new }
{
    write(arena, h, Field::Reference(f), v)
}
