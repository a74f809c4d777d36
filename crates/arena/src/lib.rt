// Reading an arena: its segments, places, records and blocks.
//
// A record and a block are handed on as their own words, cut from the middle of the arena. What a function
// asks is that the arena has the length that its number of segments wants, and that there is such a segment. It asks so of a
// slice, and no type holds that: docs/STATEMENTS.md names these functions with what they take.
#![tactic(auto)]

ghost use Rattle.std.specs.Prelude.{◌≡◌, ◌<◌, ◌≤◌, length};
ghost use Rattle.model.specs.Word.{word, part};
ghost use Rattle.model.specs.Class.{block_words};
ghost use Rattle.model.specs.Layout.{place_at, block_at};
ghost use Rattle.model.specs.View.{segments, record_of, class, rank, count};
ghost use Rattle.arena.specs.Inside.{Segment, Block};

use model::BlockIndex;
use words::class::block_words;
use words::fields::{record_class, record_count, record_rank};
use words::handles::offset;

pub fn segments(arena: &[u32]) -> u32
    requires { 0 < length arena.now }
    ensures { result ≡ segments arena.now }
{
    words::fields::segments(arena[0])
}

// The word of a class's allocation place.
pub fn place_of(arena: &[u32], class: u32) -> u32
    requires { (11 ≤ length arena.now) × (3 ≤ class) × (class ≤ 12) }
    ensures { result ≡ word arena.now (place_at class) }
{
    arena[(class - 2) as usize]
}

// The 68 words of a segment's record.
pub fn record_of(arena: &[u32], segment: u32) -> &[u32]
    requires { Segment arena.now segment }
    ensures { result.now ≡ record_of arena.now segment }
{
    let at = 11 + 68 * segment as usize;
    &arena[at..at + 68]
}

// The first of them.
pub fn head_of(arena: &[u32], segment: u32) -> u32
    requires { Segment arena.now segment }
    ensures { result ≡ word (record_of arena.now segment) 0 }
{
    arena[11 + 68 * segment as usize]
}

// 0 in the pool, as document 01 stores it.
pub fn class(arena: &[u32], segment: u32) -> u32
    requires { Segment arena.now segment }
    ensures { result ≡ class arena.now segment }
{
    record_class(head_of(arena, segment))
}

pub fn rank(arena: &[u32], segment: u32) -> u32
    requires { Segment arena.now segment }
    ensures { result ≡ rank arena.now segment }
{
    record_rank(head_of(arena, segment))
}

pub fn count(arena: &[u32], segment: u32) -> u32
    requires { Segment arena.now segment }
    ensures { result ≡ count arena.now segment }
{
    record_count(head_of(arena, segment))
}

// The words of a block, from its offset to its end.
pub fn block_of(arena: &[u32], n: u32, segment: u32, class: u32, index: BlockIndex) -> &[u32]
    requires { Block arena.now n segment class index.0 }
    ensures { result.now ≡ part arena.now (block_at n segment class index.0) (block_words class) }
{
    let at = offset(n, segment, class, index).0;
    &arena[at..at + block_words(class) as usize]
}
