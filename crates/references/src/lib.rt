// The judge of headers and references, of an arena with its taken row.
//
// "Every taken block has n whose class is the segment's, r not above n, and each reference 0 or the handle of a
// taken block." Segment by segment: the references of large blocks are tested where they stand; those of a segment of
// small blocks are gathered into one row (gather), and that row is tested flat. Small blocks of which 32 in a row are
// taken are gathered together (beside).

#![tactic(auto)]

mod beside;
mod gather;
pub mod judge;
mod refs;
