// The block to give.
ghost use Rattle.allocation.specs.Spots.{Search, FreeAt, FindsFree, Joining, Finds};

use crate::pool::first_pool;
use crate::segments::ranked;
use arena::{place_of, record_of};
use bitmap::search::first_free;
use model::BlockIndex;
use records::ranks::members;
use words::class::blocks;
use words::fields::{place_index, place_rank};

// A block by its segment, the rank of that in its class, and its index there.
#[derive(Clone, Copy, Debug, PartialEq, Eq)]
pub struct Spot {
    pub segment: u32,
    pub rank: u32,
    pub index: BlockIndex,
}

// A block of one of the class's own segments, or block 0 of a pool segment that joins the class.
#[derive(Clone, Copy, Debug, PartialEq, Eq)]
pub enum Found {
    Here(Spot),
    Joins(Spot),
}

// In the segment of a rank, the first free block at or after an index, which may be the number of blocks.
fn free_at(arena: &[u32], class: u32, rank: u32, from: BlockIndex) -> Option<Spot>
    requires { FreeAt arena.now class rank from.0 }
    ensures { FindsFree arena.now class rank from.0 result }
{
    let segment = ranked(arena, class, rank)?;
    let k = first_free(record_of(arena, segment), class, from.0);
    if k == blocks(class) {
        None
    } else {
        Some(Spot {
            segment,
            rank,
            index: BlockIndex(k),
        })
    }
}

// Where a class has no untaken block: block 0 of the lowest-numbered pool segment, at the next rank.
fn joining(arena: &[u32], class: u32, rank: u32) -> Option<Found>
    requires { Joining arena.now class rank }
    ensures { Finds arena.now class result }
{
    let segment = first_pool(arena)?;
    Some(Found::Joins(Spot {
        segment,
        rank,
        index: BlockIndex(0),
    }))
}

// The block that an allocation of the class is given.
pub fn find(arena: &[u32], class: u32) -> Option<Found>
    requires { Search arena.now class }
    ensures { Finds arena.now class result }
{
    let m = members(arena, class);
    if m == 0 {
        return joining(arena, class, m);
    }
    let place = place_of(arena, class);
    let rank = place_rank(place);
    // Every block before the place is taken.
    if let Some(here) = free_at(arena, class, rank, BlockIndex(place_index(place))) {
        return Some(Found::Here(here));
    }
    // A segment behind the place is not full, so this search finds a block.
    if rank + 1 < m {
        return free_at(arena, class, rank + 1, BlockIndex(0)).map(Found::Here);
    }
    joining(arena, class, m)
}
