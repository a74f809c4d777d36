// What is asked of each segment that is not in the pool: right levels, a right count, and not to be full behind the place.
//
// The three tests of a segment ask for the same fact by `requires`: a struct that kept it would be made in the closures below,
// and each of these would have to state it. Nor do they go through one function over a test: its callers' closures would each
// have to say what they ask, as in ranks.
ghost use Rattle.std.specs.Prelude.{◌≡◌};
ghost use Rattle.model.specs.Sound.{levels, counts, behind};
ghost use Rattle.arena.specs.Inside.{Classed};
ghost use Rattle.records.specs.Judged.{Member, member_levels, member_counts, member_behind};

use crate::levels::levels_right;
use arena::{class as class_of, count, place_of, rank, record_of, segments};
use bitmap::count::count as count_bits;
use words::class::blocks;
use words::fields::place_rank;

fn member_levels(arena: &[u32], segment: u32) -> bool
    requires { Member arena.now segment }
    ensures { result ≡ member_levels arena.now segment }
{
    let class = class_of(arena, segment);
    class == 0 || levels_right(record_of(arena, segment), class)
}

pub fn levels(arena: &[u32]) -> bool
    requires { Classed arena.now }
    ensures { result ≡ levels arena.now }
{
    (0..segments(arena)).all(|s| member_levels(arena, s))
}

// Padding is no block, and is not counted.
fn member_counts(arena: &[u32], segment: u32) -> bool
    requires { Member arena.now segment }
    ensures { result ≡ member_counts arena.now segment }
{
    let class = class_of(arena, segment);
    class == 0 || count(arena, segment) == count_bits(record_of(arena, segment), class)
}

pub fn counts(arena: &[u32]) -> bool
    requires { Classed arena.now }
    ensures { result ≡ counts arena.now }
{
    (0..segments(arena)).all(|s| member_counts(arena, s))
}

// A segment ranked behind the place is not full, so that the search behind the place finds a block in it.
fn member_behind(arena: &[u32], segment: u32) -> bool
    requires { Member arena.now segment }
    ensures { result ≡ member_behind arena.now segment }
{
    let class = class_of(arena, segment);
    class == 0
        || rank(arena, segment) <= place_rank(place_of(arena, class))
        || count(arena, segment) < blocks(class)
}

pub fn behind(arena: &[u32]) -> bool
    requires { Classed arena.now }
    ensures { result ≡ behind arena.now }
{
    (0..segments(arena)).all(|s| member_behind(arena, s))
}
