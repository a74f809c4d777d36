// Places: where the allocation place of each class may stand.
ghost use Rattle.std.specs.Prelude.{◌≡◌};
ghost use Rattle.model.specs.Sound.{place_right, places};
ghost use Rattle.records.specs.Judged.{Sized, SizedClass, allowed};

use crate::ranks::members;
use arena::place_of;
use words::class::blocks;
use words::fields::{place_index, place_rank};

// Of m segments: with m = 0 the place is (0, 0); otherwise it is in one of them, or at its end.
fn allowed(m: u32, rank: u32, index: u32, blocks: u32) -> bool
    ensures { result ≡ allowed m rank index blocks }
{
    if m == 0 {
        rank == 0 && index == 0
    } else {
        rank < m && index <= blocks
    }
}

fn place_right(arena: &[u32], class: u32) -> bool
    requires { SizedClass arena.now class }
    ensures { result ≡ place_right arena.now class }
{
    let place = place_of(arena, class);
    allowed(
        members(arena, class),
        place_rank(place),
        place_index(place),
        blocks(class),
    )
}

pub fn places(arena: &[u32]) -> bool
    requires { Sized arena.now }
    ensures { result ≡ places arena.now }
{
    (3..=12).all(|class| place_right(arena, class))
}
