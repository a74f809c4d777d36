// The record of a segment that joins a class.
ghost use Rattle.std.specs.Prelude.{◌≡◌, false};
ghost use Rattle.model.specs.Layout.{record_words};
ghost use Rattle.bitmap.specs.Tree.{OnLevel, Fresh, head_only, padded_level};

use crate::levels::{level_end, word_at};
use words::bits::ones_from;
use words::class::level_words;
use words::fields::record_head;

// Pads the last word of a level, if the class uses the level: ones past the level's end.
fn pad(rec: &mut [u32], class: u32, level: u32)
    requires { OnLevel rec.old class level }
    ensures { rec.new ≡ padded_level class level rec.old }
{
    let words = level_words(class, level);
    if words == 0 {
        return;
    }
    let last = words - 1;
    let bits = level_end(class, level) - 32 * last;
    rec[word_at(level, last)] = ones_from(bits);
}

// A record's head, and 0 behind it.
fn head_only(rec: &mut [u32], class: u32, rank: u32)
    requires { Fresh rec.old class rank }
    ensures { rec.new ≡ head_only class rank }
{
    rec.fill(0);
    rec[0] = record_head(class, rank, 0);
}

// The record of a segment of that class and rank, in which no block's bit is set.
pub fn fresh(rec: &mut [u32], class: u32, rank: u32)
    requires { Fresh rec.old class rank }
    ensures { rec.new ≡ record_words class rank 0 (λ k. false) }
{
    head_only(rec, class, rank);
    pad(rec, class, 0);
    pad(rec, class, 1);
    pad(rec, class, 2);
}
