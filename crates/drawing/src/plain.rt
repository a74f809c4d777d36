// Reading and writing a plain word of a block, and all its plain words as a part of the arena.
ghost use Rattle.model.specs.Calls.{ReadPlain, WritePlain, PlainWords};

use crate::block::Field;
use crate::fields::{read, write};
use crate::look::judged;
use model::{Handle, Refusal};

pub fn read_plain(arena: &[u32], h: Handle, f: u32) -> Result<u32, Refusal>
    ensures { ReadPlain arena.now h.0 f result arena.now }
{
    read(arena, h, Field::Plain(f))
}

// A plain word may be anything.
pub fn write_plain(arena: &mut [u32], h: Handle, f: u32, v: u32) -> Result<(), Refusal>
    ensures { WritePlain arena.old h.0 f v result arena.new }
{
    write(arena, h, Field::Plain(f), v)
}

// "The answer is that part of the arena itself, no copy, only to be read; empty on any refusal."
pub fn plain_words(arena: &[u32], h: Handle) -> &[u32]
    ensures { PlainWords arena.now h.0 result.now arena.now }
{
    let mut row = [0u32; 8192];
    judged(arena, &mut row)
        .and_then(|j| j.block(h))
        .map_or(&arena[..0], |b| b.plain_words())
}
