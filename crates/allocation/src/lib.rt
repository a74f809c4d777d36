// Allocate, on a sound arena: which block is given, and the words that giving it leaves.
//
// The promise speaks of all segments of the class in rank order, and of all their blocks in index order. The
// code looks into two segments at most. In a sound arena every block before the place is taken, so the first
// untaken block is the first free one at or after the place in its own segment; where that has none, it is the
// first free one of the segment behind it, which is not full; and where there is no segment behind it, the
// lowest-numbered pool segment joins. proofs/FirstLaws says so of every sound arena.

#![tactic(auto)]

pub mod find;
pub mod give;
pub mod pool;
pub mod segments;
