// The keys by which segments are ranked anew.
//
// A key is made of class, group and former rank, most significant first. So the segments of a class that stay
// have their new order as the order of their keys, and a new rank is the number of such keys before its own. A key
// is one number, and no struct of three, since a rank is counted over all keys, several at a time.
ghost use Rattle.std.specs.Prelude.{◌≡◌, ◌/◌, ◌%◌, ◌<◌, ◌≤◌};
ghost use Rattle.model.specs.Word.{word};
ghost use Rattle.model.specs.View.{segments, class, rank};
ghost use Rattle.arena.specs.Inside.{Segment};
ghost use Rattle.ranking.specs.Groups.{group_of, number};
ghost use Rattle.ranking.specs.Keys.{Whole, key_of, Keys, keys_in};

use crate::groups::Group;
use crate::rows::by_segment;
use arena::{class, rank, segments};

pub fn key(class: u32, group: Group, rank: u32) -> u32
    requires { (class < 16) × (rank < 256) }
    ensures { result ≡ key_of class (number group) rank }
{
    class * 1024 + group as u32 * 256 + rank
}

pub fn key_class(key: u32) -> u32
    ensures { result ≡ key / 1024 }
{
    key / 1024
}

// A number and no `Group`: a key may be any, and 3 is no group's.
pub fn key_group(key: u32) -> u32
    ensures { result ≡ key / 256 % 4 }
{
    key / 256 % 4
}

// The key of a segment.
fn key_of(arena: &[u32], lives: &[u32; 64], s: u32) -> u32
    requires { Segment arena.now s }
    ensures { result ≡ key_of (class arena.now s) (group_of (class arena.now s) (word lives.now s)) (rank arena.now s) }
{
    let i = class(arena, s);
    let group = Group::of(i, lives[s as usize]);
    key(i, group, rank(arena, s))
}

// The keys of the n segments of an arena: the first n of 64, and no `ArrayVec`, since `keys_in`, which docs/STATEMENTS.md names,
// takes the row and n.
#[derive(Drop)]
pub struct SegmentKeys {
    pub n: u32,
    pub keys: [u32; 64],
    ghost few: { n ≤ 64 },
}

impl SegmentKeys {
    // One function asks that the arena is whole: a type for that would be no shorter.
    pub fn of(arena: &[u32], lives: &[u32; 64]) -> SegmentKeys
        requires { Whole arena.now }
        ensures all { result.n ≡ segments arena.now }
        ensures keys { Keys arena.now lives.now result.keys }
    {
        let n = segments(arena);
        let keys = by_segment(n, |s| key_of(arena, lives, s));
        SegmentKeys { n, keys }
    }
}

// How many of the first n keys lie from `from` on and before `to`: a sum with no branch on what the keys are, which is
// taken several keys at a time.
pub fn keys_in(keys: &[u32; 64], n: u32, from: u32, to: u32) -> u32
    requires { n ≤ 64 }
    ensures { (result ≡ keys_in keys.now n from to) × (result ≤ 64) }
{
    keys[..n as usize]
        .iter()
        .map(|&key| u32::from(from <= key && key < to))
        .sum()
}
