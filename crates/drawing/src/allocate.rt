// Allocating a block.
ghost use Rattle.std.specs.Prelude.{◌≡◌, ◌<◌};
ghost use Rattle.model.specs.Layout.{handle};
ghost use Rattle.model.specs.Calls.{Allocate};
ghost use Rattle.allocation.specs.Gifts.{Allowed};

use crate::look::judged;
use allocation::find::{Found, Spot, find};
use allocation::give::{give, give_joining};
use model::{Handle, Refusal, Shape};
use words::class::class_of;
use words::handles::handle;

// The handle of the block of a spot.
fn given(spot: Spot) -> Handle
    requires { (spot.segment < 64) × (spot.index.0 < 2048) }
    ensures { result.0 ≡ handle spot.segment spot.index.0 }
{
    handle(spot.segment, spot.index)
}

// What is left once neither refusal 2 nor 3 applies: the first untaken block of the class, or block 0 of a
// segment that joins, or no room.
fn allocate_sound(arena: &mut [u32], shape: Shape) -> Result<Handle, Refusal>
    requires { Allowed arena.old shape.n shape.r }
    ensures { Allocate arena.old shape.n shape.r shape.tag result arena.new }
{
    let class = class_of(shape.n);
    match find(arena, class) {
        Some(Found::Here(spot)) => {
            give(arena, class, spot, shape);
            Ok(given(spot))
        }
        Some(Found::Joins(spot)) => {
            give_joining(arena, class, spot, shape);
            Ok(given(spot))
        }
        None => Err(Refusal::NoRoom),
    }
}

// The first untaken block of the class of n, with its header, 0 up to its end.
#[tactic(auto, unfolding(model::specs::Calls::allocate_refusal))]
pub fn allocate(arena: &mut [u32], n: u32, r: u32, tag: u8) -> Result<Handle, Refusal>
    ensures { Allocate arena.old n r tag result arena.new }
{
    let mut row = [0u32; 8192];
    judged(arena, &mut row)?;
    if 1023 < n || n < r {
        return Err(Refusal::BadShape);
    }
    allocate_sound(arena, Shape { n, r, tag })
}
