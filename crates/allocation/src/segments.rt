// Segments by their rank.
ghost use Rattle.std.specs.Prelude.{◌≡◌};
ghost use Rattle.model.specs.View.{segments, ranked};
ghost use Rattle.allocation.specs.Spots.{Whole, below};

use arena::segments;
use records::ranks::has_rank;

// The segment of a rank among those of its class.
pub fn ranked(arena: &[u32], class: u32, rank: u32) -> Option<u32>
    requires { Whole arena.now }
    ensures { result ≡ below (segments arena.now) (ranked arena.now class rank) }
{
    (0..segments(arena)).find(|&s| has_rank(arena, class, rank, s))
}
