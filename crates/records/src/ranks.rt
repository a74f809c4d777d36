// Ranks: the m segments of a class have the ranks 0 to m - 1, each once.
//
// There are at most 64 segments, so each rank is looked for among all of them, and nothing has to be kept.
// What is counted is a sum of ones: it has no branch and runs over several segments at a time, which a filter does not.
ghost use Rattle.std.specs.Prelude.{◌≡◌};
ghost use Rattle.model.specs.View.{members};
ghost use Rattle.model.specs.Sound.{ranks};
ghost use Rattle.arena.specs.Inside.{Segment};
ghost use Rattle.records.specs.Judged.{Sized, has_rank, holders, class_ranked};

use arena::{class as class_of, head_of, segments};
use words::fields::{record_class, record_rank};

// Whether the segment is the one of a class that has that rank.
pub fn has_rank(arena: &[u32], class: u32, rank: u32, segment: u32) -> bool
    requires { Segment arena.now segment }
    ensures { result ≡ has_rank arena.now class rank segment }
{
    let head = head_of(arena, segment);
    record_class(head) == class && record_rank(head) == rank
}

// m, the number of segments of a class.
pub fn members(arena: &[u32], class: u32) -> u32
    requires { Sized arena.now }
    ensures { result ≡ members arena.now class }
{
    (0..segments(arena))
        .map(|s| u32::from(class_of(arena, s) == class))
        .sum()
}

// How many of them have that rank. Two chains of two lines, and no function over a test: it would be no shorter, and its
// callers' closures would each have to say what they ask.
fn holders(arena: &[u32], class: u32, rank: u32) -> u32
    requires { Sized arena.now }
    ensures { result ≡ holders arena.now class rank }
{
    (0..segments(arena))
        .map(|s| u32::from(has_rank(arena, class, rank, s)))
        .sum()
}

fn class_ranked(arena: &[u32], class: u32) -> bool
    requires { Sized arena.now }
    ensures { result ≡ class_ranked arena.now class }
{
    (0..members(arena, class)).all(|q| holders(arena, class, q) == 1)
}

pub fn ranks(arena: &[u32]) -> bool
    requires { Sized arena.now }
    ensures { result ≡ ranks arena.now }
{
    (3..=12).all(|class| class_ranked(arena, class))
}
