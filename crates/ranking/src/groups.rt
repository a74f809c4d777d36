// The groups in which segments are ranked anew.
ghost use Rattle.std.specs.Prelude.{◌≡◌, ◌<◌};
ghost use Rattle.ranking.specs.Groups.{group_of, number};

use words::class::blocks;

// In the order of their keys: the segments that go to the pool or are there, the full ones, and the rest.
#[derive(Clone, Copy, Debug, PartialEq, Eq)]
pub enum Group {
    Pool,
    Full,
    Rest,
}

impl Group {
    // The group of a segment of that class with so many marked blocks.
    #[tactic(auto, unfolding(crate::specs::Groups::group_of))]
    pub fn of(class: u32, live: u32) -> Group
        requires { class < 16 }
        ensures { number result ≡ group_of class live }
    {
        if class == 0 || live == 0 {
            Group::Pool
        } else if live == blocks(class) {
            Group::Full
        } else {
            Group::Rest
        }
    }
}
