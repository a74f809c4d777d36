// Giving a block: the words that change.
//
// "The block gets its header and is 0 up to its end. The place becomes (its rank, its index + 1)." A segment
// that joins its class gets a fresh record before that. A record and a block are written as their own words,
// cut from the middle of the arena.
ghost use Rattle.std.specs.Prelude.{◌≡◌, false, [], ◌∷◌, ◌-◌, ◌<◌, ◌≤◌, length, replicate};
ghost use Rattle.model.specs.Word.{put};
ghost use Rattle.model.specs.Layout.{place_at, place_word, record_at, record_words, block_at, header_word};
ghost use Rattle.model.specs.Calls.{allocated};
ghost use Rattle.allocation.specs.Gifts.{Cleared, Join, Take, GiveHere, GiveJoining, given_block, taken_words};

use crate::find::Spot;
use arena::segments;
use bitmap::fresh::fresh;
use model::Shape;
use words::class::block_words;
use words::fields::{header, place};
use words::handles::offset;

// A block's header, and 0 up to the block's end.
fn clear_block(block: &mut [u32], shape: Shape)
    requires { Cleared block.old shape }
    ensures { block.new ≡ header_word shape.n shape.r shape.tag ∷ replicate (length block.old - 1) 0 }
{
    block.fill(0);
    block[0] = header(shape);
}

fn put_block(arena: &mut [u32], segments: u32, class: u32, spot: Spot, shape: Shape)
    requires { Take arena.old segments class spot shape }
    ensures { arena.new ≡ put arena.old (block_at segments spot.segment class spot.index.0) (given_block class shape) }
{
    let at = offset(segments, spot.segment, class, spot.index).0;
    let words = block_words(class);
    let end = at + words as usize;
    clear_block(&mut arena[at..end], shape);
}

fn put_place(arena: &mut [u32], class: u32, rank: u32, index: u32)
    requires { (11 ≤ length arena.old) × (3 ≤ class) × (class ≤ 12) × (rank < 256) × (index < 4096) }
    ensures { arena.new ≡ put arena.old (place_at class) (place_word rank index ∷ []) }
{
    arena[class as usize - 2] = place(rank, index);
}

// The segment joins the class at that rank, with count 0 and no bit set. Its record is cut here, as in crate ranking: to write, and
// `arena::record_of` cuts it to read.
fn join(arena: &mut [u32], segment: u32, class: u32, rank: u32)
    requires { Join arena.old segment class rank }
    ensures { arena.new ≡ put arena.old (record_at segment) (record_words class rank 0 (λ k. false)) }
{
    let at = 11 + 68 * segment as usize;
    fresh(&mut arena[at..at + 68], class, rank);
}

// The block's words and the place's. No bit is set: a block before the place is taken without one. Class, spot and shape go
// one by one: each comes from another function, and a type for the three would have no method but these.
fn take(arena: &mut [u32], segments: u32, class: u32, spot: Spot, shape: Shape)
    requires { Take arena.old segments class spot shape }
    ensures { arena.new ≡ taken_words arena.old segments class spot shape }
{
    put_block(arena, segments, class, spot, shape);
    put_place(arena, class, spot.rank, spot.index.0 + 1);
}

// Gives an untaken block of the class's own segments.
pub fn give(arena: &mut [u32], class: u32, spot: Spot, shape: Shape)
    requires { GiveHere arena.old class spot shape }
    ensures { arena.new ≡ allocated arena.old shape.n shape.r shape.tag }
{
    let n = segments(arena);
    take(arena, n, class, spot, shape);
}

// Gives block 0 of a pool segment, which joins the class.
pub fn give_joining(arena: &mut [u32], class: u32, spot: Spot, shape: Shape)
    requires { GiveJoining arena.old class spot shape }
    ensures { arena.new ≡ allocated arena.old shape.n shape.r shape.tag }
{
    let n = segments(arena);
    join(arena, spot.segment, class, spot.rank);
    take(arena, n, class, spot, shape);
}
