// How many blocks of each segment are marked.
ghost use Rattle.std.specs.Prelude.{◌≡◌, ◌≤◌};
ghost use Rattle.ranking.specs.Live.{RowOf, Row, live_in, Live};

use crate::rows::by_segment;
use words::bits::ones_in;

// The marks of a segment are 64 words; behind its blocks none is set. Crate drawing has the same two lines over its taken row:
// one function for both would be no shorter.
fn live_in(marks: &[u32], s: u32) -> u32
    requires { RowOf marks.now s }
    ensures { (result ≡ live_in marks.now s) × (result ≤ 2048) }
{
    let from = 1 + 64 * s as usize;
    ones_in(&marks[from..from + 64])
}

// The count of each of n segments.
pub fn count(marks: &[u32], n: u32) -> [u32; 64]
    requires { Row marks.now n }
    ensures { Live marks.now n result }
{
    by_segment(n, |s| live_in(marks, s))
}
