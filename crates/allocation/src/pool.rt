// The pool: the segments of no class.
ghost use Rattle.std.specs.Prelude.{◌≡◌};
ghost use Rattle.model.specs.View.{segments};
ghost use Rattle.model.specs.Calls.{first_pool};
ghost use Rattle.allocation.specs.Spots.{Whole, below};

use arena::{class as class_of, segments};

// The lowest-numbered pool segment. That the arena is whole, this and the search by rank ask of a slice: two functions of a
// line each, to which a type would add a third.
pub fn first_pool(arena: &[u32]) -> Option<u32>
    requires { Whole arena.now }
    ensures { result ≡ below (segments arena.now) (first_pool arena.now) }
{
    (0..segments(arena)).find(|&s| class_of(arena, s) == 0)
}
