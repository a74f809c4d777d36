// What a collection makes of records and places, once its marks are there.
//
// "Bits, levels and counts become those of the reachable blocks. Segments with count 0 go to the pool. The
// others are ranked anew: full ones first, then the rest, each group in its former order."
//
// First everything is read: how many blocks of each segment are marked, the group that this puts it in,
// and from classes, groups and former ranks the heads of the new records and the new places. Then everything is written:
// each record with its head and the levels of its marks, and the places. Word 0 and the blocks stay. Shown
// here: the arena afterwards, word by word, is that of document 01 as crate model states it.
//
// Counts and keys are two rows by segment, and no row of pairs: a rank is counted over the keys alone, several at a time.
#![tactic(auto)]

ghost use Rattle.ranking.specs.Anew.{Reached, Anew};

use crate::keys::SegmentKeys;
use crate::live::count;
use crate::places::write_places;
use crate::records::write_records;
use arena::segments;

pub mod groups;
pub mod heads;
pub mod keys;
pub mod levels;
pub mod live;
pub mod places;
pub mod records;
mod rows;

// The marks are those of a trace: of taken blocks alone. New ranks come from the former ones, so they are all
// computed before any is written.
pub fn rank_anew(arena: &mut [u32], marks: &[u32])
    requires { Reached arena.old marks.now }
    ensures { Anew arena.old marks.now arena.new }
{
    let lives = count(marks, segments(arena));
    let keys = SegmentKeys::of(arena, &lives);
    let heads = keys.new_heads(&lives);
    let places = keys.new_places();
    write_records(arena, &heads, marks);
    write_places(arena, &places);
}
