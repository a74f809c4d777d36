// A record's levels, made of the marks of its segment.
//
// The marks line up with level 0. The record begins without any bit set; then each word of level 0 gets the bits of the marks' word. Where it
// does not become full, it is stored at once, for no level above tells of it. "Setting a bit climbs to the next level only when the word has
// become full": where it does, it is stored without the bit of its first block, and that one is set, which climbs.
ghost use Rattle.std.specs.Prelude.{◌≡◌, false, ◌∷◌};
ghost use Rattle.model.specs.Word.{word};
ghost use Rattle.model.specs.Layout.{level_rows};
ghost use Rattle.bitmap.specs.Tree.{OfClass};
ghost use Rattle.ranking.specs.Live.{mark_in};
ghost use Rattle.ranking.specs.Levels.{with_word, PutWord, OfMarks};

use bitmap::climb::set_bit;
use bitmap::fresh::fresh;
use words::class::blocks;

// The record with the same head in which no block's bit is set.
fn unset(rec: &mut [u32], class: u32)
    requires { OfClass rec.old class }
    ensures { rec.new ≡ word rec.old 0 ∷ level_rows class (λ k. false) }
{
    let head = rec[0];
    fresh(rec, class, 0);
    rec[0] = head;
}

// Sets the bits of w in word j of level 0, of which the first block is free.
fn put_word(rec: &mut [u32], class: u32, j: u32, w: u32)
    requires { PutWord rec.old class j }
    ensures { rec.new ≡ word rec.old 0 ∷ level_rows class (with_word rec.old j w) }
{
    let at = (1 + j) as usize;
    let both = rec[at] | w;
    if both == u32::MAX {
        rec[at] = both - 1;
        set_bit(rec, class, 32 * j);
    } else {
        rec[at] = both;
    }
}

// All levels of a record of that class.
pub fn write_levels(rec: &mut [u32], class: u32, marks: &[u32])
    requires { OfMarks rec.old class marks.now }
    ensures { rec.new ≡ word rec.old 0 ∷ level_rows class (mark_in marks.now) }
{
    unset(rec, class);
    let words = blocks(class).div_ceil(32) as usize;
    for (j, &w) in marks[..words].iter().enumerate() {
        put_word(rec, class, j as u32, w);
    }
}
