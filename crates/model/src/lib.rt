// What a reader of document 01 must believe, and nothing else: here handles, shapes, standings and refusals, and in
// specs/ the meaning of the document, one file for each of its headings.
//
// A handle, a block index and a word offset are never taken for each other: each is a type of its own.
#![tactic(auto)]

ghost use Rattle.std.specs.Prelude.{◌≡◌};
ghost use Rattle.model.specs.Numbers.{refusal_number};

// A block as the caller knows it: segment x 2,048 + block index + 1. Handle 0 means none.
#[derive(Clone, Copy, Debug, PartialEq, Eq)]
pub struct Handle(pub u32);

// The place of a block among the blocks of its segment, from 0.
#[derive(Clone, Copy, Debug, PartialEq, Eq)]
pub struct BlockIndex(pub u32);

// The place of a word in the arena, from 0.
#[derive(Clone, Copy, Debug, Default, PartialEq, Eq)]
pub struct WordOffset(pub usize);

// What a block's header says: the number of words after it, how many of those are references, and a
// tag of the owner's choosing.
#[derive(Clone, Copy, Debug, Default, PartialEq, Eq)]
pub struct Shape {
    pub n: u32,
    pub r: u32,
    pub tag: u8,
}

// What stands behind a handle.
#[derive(Clone, Copy, Debug, PartialEq, Eq)]
pub enum Standing {
    None,
    Outside,
    Free,
    Taken(Shape),
}

// Why a call is refused: the refusal numbers of document 01, from 1 on.
#[derive(Clone, Copy, Debug, PartialEq, Eq)]
pub enum Refusal {
    BadSize = 1,
    Unsound,
    BadShape,
    NoRoom,
    NoBlock,
    NoField,
    BadReference,
    BadRoot,
    ShortList,
}

impl From<Refusal> for u32 {
    ghost from_gives = { λ e n. n ≡ refusal_number e };

    fn from(e: Refusal) -> u32 {
        e as u32
    }
}
