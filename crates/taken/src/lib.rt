// Which blocks are taken, as one row of bits.
//
// The taken row has a bit for each handle (crate arena, Rows): that of handle 0 is set, and that of any other exactly
// if its block is taken. 64 words for each segment line up with the level-0 words of the segment's record. Whoever
// asks whether a handle is 0 or that of a taken block asks one bit of this row, and the number of taken blocks is its
// count of ones, but for that of handle 0.

#![tactic(auto)]

pub mod ask;
pub mod row;
