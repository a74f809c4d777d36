// Setting the bit of a block.
ghost use Rattle.std.specs.Prelude.{◌≡◌, ◌||◌, ◌∷◌, ◌+◌, ◌/◌, eqb};
ghost use Rattle.model.specs.Word.{word, full};
ghost use Rattle.model.specs.Layout.{level_at, level_rows};
ghost use Rattle.model.specs.View.{bit_in};
ghost use Rattle.bitmap.specs.Tree.{BitOf, SetBit, with_level_bit, climbed};

use crate::levels::{levels, word_at};
use words::bits::with_bit;

// Sets one bit of one level, and says whether its word is full now.
fn set_level_bit(rec: &mut [u32], level: u32, k: u32) -> bool
    requires { BitOf rec.old level 0 k }
    ensures added { rec.new ≡ with_level_bit rec.old level k }
    ensures filled { result ≡ full (word rec.new (level_at level + k / 32)) }
{
    let at = word_at(level, k / 32);
    let w = with_bit(rec[at], k % 32);
    rec[at] = w;
    w == u32::MAX
}

// Sets a bit and climbs to the next of the levels that are left only when the word has become full. A type that holds the
// parameters would be no plainer: one function makes them, and one other takes them.
fn climb(rec: &mut [u32], level: u32, left: u32, k: u32)
    requires { BitOf rec.old level left k }
    ensures { rec.new ≡ climbed left level k rec.old }
{
    if set_level_bit(rec, level, k) && 0 < left {
        climb(rec, level + 1, left - 1, k / 32);
    }
}

// Sets the bit of block k: exactly that level-0 bit is added, and the levels are again those of its bits.
pub fn set_bit(rec: &mut [u32], class: u32, k: u32)
    requires { SetBit rec.old class k }
    ensures { rec.new ≡ word rec.old 0 ∷ level_rows class (λ j. eqb j k || bit_in rec.old j) }
{
    climb(rec, 0, levels(class) - 1, k);
}
