// Asking a row: is a handle that of a taken block, are all of some words, and how many blocks are taken.
ghost use Rattle.std.specs.Prelude.{◌≡◌, ◌+◌, ◌*◌, ◌≤◌, ◌&&◌, length, get_or};
ghost use Rattle.model.specs.Below.{all_below, count_below};
ghost use Rattle.model.specs.Word.{bit};
ghost use Rattle.arena.specs.Rows.{row_bit};
ghost use Rattle.taken.specs.Row.{asked_bit, row_taken, row_none_or_taken, all_words, seen_right};

use words::bits::ones_in;

// A word whose lowest bit is the one that is asked for a handle.
fn asked(row: &[u32; 8192], h: u32) -> u32
    ensures { bit result 0 ≡ asked_bit row.now h }
{
    let at = h as usize + 31;
    row[at / 32 % 8192] >> (at % 32)
}

// 0 or the handle of a taken block.
pub fn none_or_taken(row: &[u32; 8192], h: u32) -> bool
    ensures { result ≡ row_none_or_taken row.now h }
{
    h < 262144 && asked(row, h) % 2 == 1
}

// The handle of a taken block.
pub fn is_taken(row: &[u32; 8192], h: u32) -> bool
    ensures { result ≡ row_taken row.now h }
{
    h != 0 && none_or_taken(row, h)
}

// What the words that have been asked have in common: the lowest bit of `all` is set if all their bits are, and
// `over` has every bit that one of them has. Words too great for any handle show in it. Numbers and no bools: each bool
// would be made of a bit and joined by `&` all the same.
#[derive(Clone, Copy, Debug, PartialEq, Eq)]
pub struct Seen {
    pub all: u32,
    pub over: u32,
}

impl Seen {
    // One word more.
    fn word(self, row: &[u32; 8192], h: u32) -> Seen
        ensures { seen_right result.all result.over ≡ (seen_right self.all self.over && row_none_or_taken row.now h) }
    {
        Seen {
            all: self.all & asked(row, h),
            over: self.over | h,
        }
    }

    // So many words more.
    fn words(self, row: &[u32; 8192], words: &[u32]) -> Seen
        ensures { seen_right result.all result.over ≡ (seen_right self.all self.over && all_words (row_none_or_taken row.now) words.now) }
    {
        let mut seen = self;
        for h in words {
            seen = seen.word(row, *h);
        }
        seen
    }
}

// All words, four at a time while there are as many: one at a time the judge took 3 % longer.
fn ask_all(row: &[u32; 8192], words: &[u32]) -> Seen
    ensures { seen_right result.all result.over ≡ all_words (row_none_or_taken row.now) words.now }
{
    let mut seen = Seen { all: 1, over: 0 };
    let mut rest = words;
    while let Some((four, tail)) = rest.split_first_chunk::<4>() {
        seen = seen.words(row, four);
        rest = tail;
    }
    seen.words(row, rest)
}

// Each of some words is 0 or the handle of a taken block. No branch depends on what they are. Within its callers the loop
// would have too few registers: the judge took 4 % longer.
#[inline(never)]
pub fn all_none_or_taken(row: &[u32; 8192], words: &[u32]) -> bool
    ensures { result ≡ all_below (length words.now) (λ p. row_none_or_taken row.now (get_or words.now p 0)) }
{
    let seen = ask_all(row, words);
    seen.over < 262144 && seen.all % 2 == 1
}

// The number of taken blocks: the ones of the words of n segments.
pub fn taken_count(row: &[u32; 8192], n: u32) -> u32
    requires { n ≤ 64 }
    ensures { result ≡ count_below (2048 * n) (λ x. row_bit row.now (x + 1)) }
{
    let end = 1 + 64 * n as usize;
    ones_in(&row[1..end])
}
