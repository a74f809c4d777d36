// The new allocation places.
ghost use Rattle.std.specs.Prelude.{◌≡◌, ◌≤◌};
ghost use Rattle.model.specs.Word.{put};
ghost use Rattle.ranking.specs.Places.{PlaceFor, place_for, place_by, Places, WritePlaces};

use crate::groups::Group;
use crate::keys::{SegmentKeys, key, keys_in};
use std::array;
use words::class::blocks;
use words::fields::place;

// "The place is (rank of the first segment that isn't full, 0); if all m are full, (m - 1, number of blocks); if m = 0, (0, 0)."
// The full ones of the class's m segments stand first.
fn place_for(class: u32, full: u32, m: u32) -> u32
    requires { PlaceFor class full m }
    ensures { result ≡ place_for class full m }
{
    if m == 0 {
        place(0, 0)
    } else if full < m {
        place(full, 0)
    } else {
        place(m - 1, blocks(class))
    }
}

impl SegmentKeys {
    fn new_place(&self, class: u32) -> u32
        requires { (3 ≤ class) × (class ≤ 12) }
        ensures { result ≡ place_by self.now.keys self.now.n class }
    {
        let first = key(class, Group::Full, 0);
        let full = keys_in(&self.keys, self.n, first, key(class, Group::Rest, 0));
        let m = keys_in(&self.keys, self.n, first, key(class + 1, Group::Pool, 0));
        place_for(class, full, m)
    }

    // The places of all classes.
    pub fn new_places(&self) -> [u32; 10]
        ensures { Places self.now.keys self.now.n result }
    {
        array::from_fn(|c| self.new_place(c as u32 + 3))
    }
}

// Writes the ten words behind the arena's first.
pub fn write_places(arena: &mut [u32], places: &[u32; 10])
    requires { WritePlaces arena.old places.now }
    ensures { arena.new ≡ put arena.old 1 places.now }
{
    arena[1..11].copy_from_slice(places);
}
