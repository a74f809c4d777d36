// Filling the taken row of an arena.
//
// "A block is taken if its segment's rank is below the place's rank; or equal to it, with an index below the
// place's index; or if its bit is set." So each segment has a limit, and a word of its row is the ones below the
// limit, or its level-0 word, and of that the bits below its number of blocks: padding is no block.
ghost use Rattle.std.specs.Prelude.{◌≡◌, ◌+◌, ◌*◌, ◌<◌, ltb};
ghost use Rattle.model.specs.Word.{word_of_bits};
ghost use Rattle.model.specs.Class.{words_for};
ghost use Rattle.arena.specs.Inside.{Classed};
ghost use Rattle.taken.specs.Row.{TakenRow, Member, Limit, Filled, ZeroRow, Blank, Fill, taken_word, Words, Segment};

use arena::{class, place_of, rank, record_of, segments};
use std::cmp::Ordering;
use words::bits::ones_from;
use words::class::blocks;
use words::fields::{place_index, place_rank};

// The word whose bit b is 1 exactly if 32 j + b is below the limit.
fn below(limit: u32, j: u32) -> u32
    requires { j < 64 }
    ensures { result ≡ word_of_bits (λ b. ltb (32 * j + b) limit) }
{
    !ones_from(limit.saturating_sub(32 * j))
}

// Word j of a segment, from its level-0 word.
fn taken_word(w: u32, limit: u32, blocks: u32, j: u32) -> u32
    requires { j < 64 }
    ensures { result ≡ taken_word w limit blocks j }
{
    (below(limit, j) | w) & below(blocks, j)
}

// The limit of a segment: all blocks where its rank is below the place's, the place's index at that rank, and 0 behind.
fn limit_of(arena: &[u32], s: u32, class: u32) -> u32
    requires { Member arena.now s class }
    ensures { Limit arena.now s result }
{
    let place = place_of(arena, class);
    match rank(arena, s).cmp(&place_rank(place)) {
        Ordering::Less => blocks(class),
        Ordering::Equal => place_index(place),
        Ordering::Greater => 0,
    }
}

// The 64 words of a segment with such a record and so many blocks.
fn fill_words(rec: &[u32], limit: u32, blocks: u32, own: &mut [u32])
    requires { Words rec.now own.old blocks }
    ensures { Segment rec.now limit blocks own.old own.new (words_for blocks) }
{
    let words = blocks.div_ceil(32);
    for (j, out) in own[..words as usize].iter_mut().enumerate() {
        *out = taken_word(rec[1 + j], limit, blocks, j as u32);
    }
}

// A segment in the pool has no blocks.
fn fill_segment(arena: &[u32], s: u32, row: &mut [u32; 8192])
    requires { Fill arena.now row.old s }
    ensures { Filled arena.now row.new (64 * s + 64) }
{
    let class = class(arena, s);
    if class == 0 {
        return;
    }
    let rec = record_of(arena, s);
    let at = 1 + 64 * s as usize;
    fill_words(
        rec,
        limit_of(arena, s, class),
        blocks(class),
        &mut row[at..at + 64],
    );
}

// A row in which no block is taken, but handle 0 has its bit.
fn blank(row: &mut [u32; 8192])
    requires { ZeroRow row.old }
    ensures { Blank row.new }
{
    row[0] = 0x8000_0000;
}

// The row is lent with all its words 0.
pub fn fill_row(arena: &[u32], row: &mut [u32; 8192])
    requires classed { Classed arena.now }
    requires zero_row { ZeroRow row.old }
    ensures { TakenRow arena.now row.new }
{
    blank(row);
    for s in 0..segments(arena) {
        fill_segment(arena, s, row);
    }
}
