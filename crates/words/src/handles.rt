// Handles, block indices and word offsets, and the ways from one to another.
//
// "A handle is segment x 2,048 + block index + 1. Handle 0 means none." No `Option` says so: a caller may ask with any number, and
// docs/STATEMENTS.md names these functions with what they take.
ghost use Rattle.std.specs.Prelude.{◌≡◌, ◌*◌, ◌<◌, ◌≤◌};
ghost use Rattle.model.specs.Class.{blocks, block_words};
ghost use Rattle.model.specs.Layout.{handle, segment_of, index_of, block_at};

use crate::class::block_words;
use model::{BlockIndex, Handle, WordOffset};

pub fn handle(segment: u32, index: BlockIndex) -> Handle
    requires { (segment < 64) × (index.0 < 2048) }
    ensures { result.0 ≡ handle segment index.0 }
{
    Handle(segment * 2048 + index.0 + 1)
}

pub fn segment(h: Handle) -> u32
    requires { 0 < h.0 }
    ensures { result ≡ segment_of h.0 }
{
    (h.0 - 1) / 2048
}

pub fn index(h: Handle) -> BlockIndex
    requires { 0 < h.0 }
    ensures { result.0 ≡ index_of h.0 }
{
    BlockIndex((h.0 - 1) % 2048)
}

// Where a block begins. The block areas stand behind 11 words and a record of 68 words for each segment.
pub fn offset(segments: u32, segment: u32, class: u32, index: BlockIndex) -> WordOffset
    requires { (segments ≤ 64) × (segment < segments) × (3 ≤ class) × (class ≤ 12) × (index.0 < blocks class) }
    ensures { result.0 ≡ block_at segments segment class index.0 }
{
    let area = 11 + 68 * segments + 4096 * segment;
    WordOffset((area + words_before(class, index)) as usize)
}

// How many words of the area stand before a block.
fn words_before(class: u32, index: BlockIndex) -> u32
    requires { (3 ≤ class) × (class ≤ 12) × (index.0 < blocks class) }
    ensures { (result ≡ block_words class * index.0) × (result ≤ 4096) }
{
    block_words(class) * index.0
}
