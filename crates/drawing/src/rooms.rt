// Room of a class: its untaken blocks, counted by the taken row.
ghost use Rattle.std.specs.Prelude.{◌≡◌, ◌<◌, ◌≤◌};
ghost use Rattle.model.specs.Below.{count_below};
ghost use Rattle.model.specs.Layout.{handle};
ghost use Rattle.model.specs.Calls.{room};
ghost use Rattle.arena.specs.Rows.{row_bit};
ghost use Rattle.drawing.specs.Rooms.{SegmentOf, room_in};

use crate::look::Sound;
use arena::segments;
use words::bits::ones_in;
use words::class::blocks;

// The taken blocks of a segment: the ones of its 64 words.
fn taken_in(row: &[u32; 8192], segment: u32) -> u32
    requires { segment < 64 }
    ensures { result ≡ count_below 2048 (λ k. row_bit row.now (handle segment k)) }
{
    let from = 1 + 64 * segment as usize;
    let end = from + 64;
    ones_in(&row[from..end])
}

impl Sound<'_, '_> {
    // What a segment gives to the room of a class.
    fn room_in(&self, segment: u32, class: u32) -> u32
        requires { SegmentOf self.now.arena.now segment class }
        ensures { result ≡ room_in self.now.arena.now class segment }
    {
        if arena::class(self.arena, segment) == class {
            blocks(class) - taken_in(self.row, segment)
        } else {
            0
        }
    }

    pub fn room(&self, class: u32) -> u32
        requires { (3 ≤ class) × (class ≤ 12) }
        ensures { result ≡ room self.now.arena.now class }
    {
        (0..segments(self.arena))
            .map(|s| self.room_in(s, class))
            .sum()
    }
}
