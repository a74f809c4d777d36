// Small blocks that stand side by side, all of them taken: their references field by field.
//
// Each of 32 blocks of 2 or 4 words is handed on as its own words. Its references go each to its field's 32 words, and
// where it has no such reference a 0 goes there, which is right as a reference. No branch depends on a header.
ghost use Rattle.std.specs.Prelude.{◌≡◌, not, ◌+◌, ◌-◌, ◌<◌, ◌≤◌, length};
ghost use Rattle.model.specs.Below.{one_if};
ghost use Rattle.references.specs.Gather.{header_right};
ghost use Rattle.references.specs.Beside.{reference_or_none, Fields, FieldsPut, InColumns, Columns, AddingBeside, AddedBeside};

use crate::gather::header_right;
use crate::refs::Refs;
use words::fields::header_r;

// 1 for a wrong header, 0 for a right one: numbers, as `added_beside`, which docs/STATEMENTS.md names, speaks of them.
fn is_wrong(block: &[u32], class: u32) -> u32
    requires { 0 < length block.now }
    ensures { (result ≡ one_if (not (header_right class block.now))) × (result ≤ 1) }
{
    u32::from(!header_right(block, class))
}

// Reference f of a block, and 0 if it has none.
fn reference_or_none(block: &[u32], f: usize) -> u32
    requires { 1 + f < length block.now }
    ensures { result ≡ reference_or_none block.now f }
{
    let v = block[1 + f];
    if f < header_r(block[0]) as usize {
        v
    } else {
        0
    }
}

// Puts the references of block k of 32, each at place k of its field's 32 words.
fn put_fields(block: &[u32], size: usize, k: usize, rest: &mut [u32])
    requires { Fields block.now size k (length rest.old) }
    ensures { FieldsPut block.now k (size - 1) rest.old rest.new }
{
    // By number: field f stands at word 32 f + k, and the header says by f whether it is there.
    for f in 0..size - 1 {
        rest[32 * f + k] = reference_or_none(block, f);
    }
}

// The same of all of them. Gives how many headers are wrong.
fn put_columns(words: &[u32], size: usize, class: u32, rest: &mut [u32]) -> u32
    requires { Columns words.now size (length rest.old) }
    ensures { InColumns class words.now size 32 rest.new result }
{
    let mut wrong = 0;
    for (k, block) in words.chunks_exact(size).enumerate() {
        put_fields(block, size, k, rest);
        wrong += is_wrong(block, class);
    }
    wrong
}

impl<'a> Refs<'a> {
    // Puts the references of all 32, if their headers are right.
    pub fn put_beside(self, blocks: &[u32], size: usize, class: u32) -> Option<Refs<'a>>
        requires { AddingBeside class blocks.now size self }
        ensures { AddedBeside class blocks.now size self.entry result }
    {
        let Refs { words, count } = self;
        let wrong = put_columns(blocks, size, class, &mut words[count..]);
        if wrong != 0 {
            return None;
        }
        Some(Refs {
            words,
            count: count + 32 * (size - 1),
        })
    }
}
