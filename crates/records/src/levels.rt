// The levels of one record, on its own 68 words.
//
// Where a level is right, the level above it is told by the words that stand there. So a level above level 0 is judged by
// the one below it. Of level 0 the bits before its end are right whatever they are: only the padding in its last used word
// and the unused words behind that are judged.
ghost use Rattle.std.specs.Prelude.{◌≡◌, ◌&&◌, ◌||◌, ◌+◌, ◌-◌, ◌*◌, ◌<◌, ◌≤◌, min, eqb, leb, length};
ghost use Rattle.model.specs.Word.{word, part, bit, full, word_of_bits};
ghost use Rattle.model.specs.Layout.{level_at, level_room};
ghost use Rattle.model.specs.Sound.{levels_right};
ghost use Rattle.bitmap.specs.Tree.{OfClass};
ghost use Rattle.records.specs.Own.{own_word, word_right, level_right, LowestOf};

use crate::zero::zero;
use bitmap::levels::word_at;
use words::bits::{ones_from, with_bit};
use words::class::{blocks, level_words};

// How many bits of word j lie before a level's end.
fn bits_in(end: u32, j: u32) -> u32
    requires { (32 * j < end) × (j < 64) }
    ensures { (result ≡ min 32 (end - 32 * j)) × (1 ≤ result) }
{
    (end - 32 * j).min(32)
}

// The word with bit b set as well if that word below is full.
fn with_full(w: u32, b: u32, below: u32) -> u32
    requires { b < 32 }
    ensures { result ≡ word_of_bits (λ k. (eqb k b && full below) || bit w k) }
{
    if below == u32::MAX { with_bit(w, b) } else { w }
}

// Which of some words are full.
fn full_words(ws: &[u32]) -> u32
    requires { length ws.now ≤ 32 }
    ensures { result ≡ word_of_bits (λ b. full (word ws.now b)) }
{
    let mut w = 0;
    for (b, below) in ws.iter().enumerate() {
        w = with_full(w, b as u32, *below);
    }
    w
}

// A level above level 0: it has so many words, and as many bits as the level below has words. Nothing compares or prints one.
#[derive(Clone, Copy)]
struct Level<'a> {
    rec: &'a [u32],
    level: u32,
    words: u32,
    end: u32,
    ghost long: { length rec.now ≡ 68 },
    ghost above: { 1 ≤ level },
    ghost used: { level < 3 },
    ghost begin: { 32 * words < end + 32 },
    ghost below: { end ≤ level_room (level - 1) },
}

impl<'a> Level<'a> {
    // Which of the n words from word 32 j on, one level below, are full.
    fn full_below(self, j: u32, n: u32) -> u32
        requires { (1 ≤ n) × (n ≤ 32) × (32 * j + n ≤ level_room (self.level - 1)) }
        ensures { result ≡ word_of_bits (λ b. full (word (part self.entry.rec.now (level_at (self.entry.level - 1) + 32 * j) n) b)) }
    {
        let from = word_at(self.level - 1, 32 * j);
        full_words(&self.rec[from..from + n as usize])
    }

    // The word that stands in it where it is right: the bits of the words below, ones past its end, and 0 where it uses
    // no such word.
    fn own_word(self, j: u32) -> u32
        requires { j < level_room self.level }
        ensures { result ≡ own_word self.entry.words self.entry.end self.entry.rec.now self.entry.level j }
    {
        if self.words <= j {
            return 0;
        }
        let n = bits_in(self.end, j);
        self.full_below(j, n) | ones_from(n)
    }

    fn word_right(self, j: u32) -> bool
        requires { j < level_room self.level }
        ensures { result ≡ word_right self.entry.words self.entry.end self.entry.rec.now self.entry.level j }
    {
        self.rec[word_at(self.level, j)] == self.own_word(j)
    }

    // All words for which it has room: level 1 for two, and level 2 for one.
    fn right(self) -> bool
        ensures { result ≡ level_right self.entry.words self.entry.end self.entry.rec.now self.entry.level }
    {
        (0..3 - self.level).all(|j| self.word_right(j))
    }
}

// Level 0: the padding of its last used word, and zeros behind.
fn lowest_right(rec: &[u32], words: u32, end: u32) -> bool
    requires { LowestOf rec.now words end }
    ensures { result ≡ level_right words end rec.now 0 }
{
    let last = rec[word_at(0, words - 1)];
    let n = bits_in(end, words - 1);
    let unused = 1 + words as usize;
    last == last | ones_from(n) && zero(&rec[unused..65])
}

// Above level 0 a level ends after as many bits as the level below has words.
pub fn levels_right(rec: &[u32], class: u32) -> bool
    requires { OfClass rec.now class }
    ensures { result ≡ levels_right class rec.now }
{
    let end = blocks(class);
    let words = level_words(class, 0);
    let above = level_words(class, 1);
    let top = level_words(class, 2);
    let level_1 = Level {
        rec,
        level: 1,
        words: above,
        end: words,
    };
    let level_2 = Level {
        rec,
        level: 2,
        words: top,
        end: above,
    };
    lowest_right(rec, words, end) && level_1.right() && level_2.right()
}
