// The search for a free block.
ghost use Rattle.std.specs.Prelude.{◌≡◌, true, not, ◌+◌, ◌-◌, ◌≤◌, ◌<◌, length, MatchOption};
ghost use Rattle.model.specs.Below.{first_from};
ghost use Rattle.model.specs.Word.{word, bit};
ghost use Rattle.model.specs.Class.{is_class, blocks, level_end, levels};
ghost use Rattle.model.specs.Layout.{level_at, level_room};
ghost use Rattle.model.specs.View.{bit_in};
ghost use Rattle.model.specs.Sound.{levels_right};
ghost use Rattle.bitmap.specs.Tree.{FirstFree, level_bit, before_end};

use crate::levels::{level_end, levels, word_at};
use words::bits::first_free as first_free_bit;
use words::class::blocks;

// A level that a record's class uses, where the record's levels are right. Nothing compares or prints one.
#[derive(Clone, Copy)]
struct Level<'a> {
    rec: &'a [u32],
    class: u32,
    level: u32,
    ghost long: { length rec.now ≡ 68 },
    ghost classed: { is_class class ≡ true },
    ghost right: { levels_right class rec.now ≡ true },
    ghost used: { level < levels class },
}

impl<'a> Level<'a> {
    // Where it ends, in bits.
    fn end(self) -> u32
        ensures { result ≡ level_end self.entry.class self.entry.level }
    {
        level_end(self.class, self.level)
    }

    // The level above it, if the class uses that.
    fn above(self) -> Option<Self>
        ensures { MatchOption result
            (self.entry.level + 1 ≡ levels self.entry.class)
            (λ up. (up.rec.now ≡ self.entry.rec.now) × (up.class ≡ self.entry.class) × (up.level ≡ self.entry.level + 1)) }
    {
        let level = self.level + 1;
        if level == levels(self.class) {
            return None;
        }
        Some(Level {
            rec: self.rec,
            class: self.class,
            level,
        })
    }

    // The first free bit at or after b in word j, if there is one.
    fn free_in(self, j: u32, b: u32) -> Option<u32>
        requires { (j < level_room self.level) × (b ≤ 32) }
        ensures { result ≡ before_end 32
            (first_from b (32 - b) (λ x. not (bit (word self.entry.rec.now (level_at self.entry.level + j)) x))) }
    {
        let free = first_free_bit(self.rec[word_at(self.level, j)], b);
        if free < 32 { Some(free) } else { None }
    }

    // The first free bit at or after k, if there is one. Where the word of k has none, the level above tells the first
    // word behind it that is not full; there the search comes down.
    fn first_free(self, k: u32) -> Option<u32>
        requires { k ≤ level_end self.class self.level }
        ensures { result ≡ before_end (level_end self.entry.class self.entry.level)
            (first_from k (level_end self.entry.class self.entry.level - k) (λ j. not (level_bit self.entry.rec.now self.entry.level j))) }
    {
        if k == self.end() {
            return None;
        }
        let j = k / 32;
        if let Some(b) = self.free_in(j, k % 32) {
            return Some(32 * j + b);
        }
        let next = self.above()?.first_free(j + 1)?;
        Some(32 * next + self.free_in(next, 0)?)
    }
}

// The first free block at or after k, and the number of blocks where there is none, since docs/STATEMENTS.md names that
// number. k may be it.
pub fn first_free(rec: &[u32], class: u32, k: u32) -> u32
    requires { FirstFree rec.now class k }
    ensures { result ≡ first_from k (blocks class - k) (λ j. not (bit_in rec.now j)) }
{
    let level_0 = Level {
        rec,
        class,
        level: 0,
    };
    level_0.first_free(k).unwrap_or(blocks(class))
}
