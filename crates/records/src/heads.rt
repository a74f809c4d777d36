// Word 0, the places and the heads of the records: an arena's size, the bits that are not named, and the classes.
ghost use Rattle.std.specs.Prelude.{◌≡◌};
ghost use Rattle.model.specs.Class.{every_class};
ghost use Rattle.model.specs.Sound.{sized, unnamed_zero, classes, every_segment};
ghost use Rattle.arena.specs.Inside.{Segment};
ghost use Rattle.records.specs.Judged.{Sized, SizedClass, place_named, head_named, segment_classed};

use crate::zero::zero;
use arena::{class, head_of, place_of, record_of, segments};

// An empty slice has no word 0, and so no segments.
pub fn sized(arena: &[u32]) -> bool
    ensures { result ≡ sized arena.now }
{
    if arena.is_empty() {
        return false;
    }
    let n = segments(arena) as usize;
    (1..=64).contains(&n) && arena.len() == 11 + 4164 * n
}

fn place_named(arena: &[u32], class: u32) -> bool
    requires { SizedClass arena.now class }
    ensures { result ≡ place_named arena.now class }
{
    place_of(arena, class) % 4096 == 0
}

fn places_named(arena: &[u32]) -> bool
    requires { Sized arena.now }
    ensures { result ≡ every_class (place_named arena.now) }
{
    (3..=12).all(|class| place_named(arena, class))
}

fn head_named(arena: &[u32], segment: u32) -> bool
    requires { Segment arena.now segment }
    ensures { result ≡ head_named arena.now segment }
{
    head_of(arena, segment) % 256 == 0
}

fn heads_named(arena: &[u32]) -> bool
    requires { Sized arena.now }
    ensures { result ≡ every_segment arena.now (head_named arena.now) }
{
    (0..segments(arena)).all(|s| head_named(arena, s))
}

pub fn unnamed_zero(arena: &[u32]) -> bool
    requires { Sized arena.now }
    ensures { result ≡ unnamed_zero arena.now }
{
    arena[0] % 0x100_0000 == 0 && places_named(arena) && heads_named(arena)
}

// A segment has one of the ten classes, or it is in the pool and its whole record is 0.
fn classed(arena: &[u32], segment: u32) -> bool
    requires { Segment arena.now segment }
    ensures { result ≡ segment_classed arena.now segment }
{
    match class(arena, segment) {
        0 => zero(record_of(arena, segment)),
        class => (3..=12).contains(&class),
    }
}

pub fn classes(arena: &[u32]) -> bool
    requires { Sized arena.now }
    ensures { result ≡ classes arena.now }
{
    (0..segments(arena)).all(|s| classed(arena, s))
}
