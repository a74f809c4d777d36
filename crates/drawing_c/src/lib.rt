// The C face of the drawing store: each function is one call of crate drawing, in C's types.
//
// The result is the refusal number, 0 if granted. Values go out by pointers, set in full on a grant and to 0
// on a refusal. What C is told is the paper of an answer that meets the promise of the call (specs/Face), so
// nothing is lost between the two. No function asks anything of its caller but what C's types cannot say:
// that what is lent is there, is aligned and does not overlap (docs/EMBEDDING.md).
#![tactic(auto)]

ghost use Rattle.std.specs.Prelude.{◌≡◌, [], ◌∷◌};
ghost use Rattle.model.specs.Numbers.{made_paper, allocated_paper, stood_paper, shaped_paper, read_paper, written_paper, room_paper, collected_paper};
ghost use Rattle.model.specs.Calls.{Make, Allocate, AskStanding, AskShape, ReadReference, WriteReference, ReadPlain, WritePlain, AskRoom, Collect};
ghost use Rattle.drawing.specs.Place.{PlainPlace};
ghost use Rattle.drawing_c.specs.Face.{Told, says};

use drawing::allocate::allocate;
use drawing::ask::shape;
use drawing::collect::collect;
use drawing::make::make;
use drawing::place::plain_place;
use drawing::plain::{read_plain, write_plain};
use drawing::reference::{read_reference, write_reference};
use model::{Handle, Refusal, Shape, Standing};
use numbers::number;

// Tells C an answer of one number: sets its value, 0 on a refusal, and gives the refusal number.
fn told(answer: Result<u32, Refusal>, value: &mut u32) -> u32
    ensures { read_paper answer ≡ says result (value.new ∷ []) }
{
    *value = answer.unwrap_or_default();
    number(&answer)
}

#[unsafe(no_mangle)]
pub extern "C" fn ds_make(arena: &mut [u32], segments: u32) -> u32
    ensures { Told made_paper (λ a. Make arena.old segments a arena.new) result [] }
{
    number(&make(arena, segments))
}

#[unsafe(no_mangle)]
pub extern "C" fn ds_allocate(arena: &mut [u32], n: u32, r: u32, tag: u8, handle: &mut u32) -> u32
    ensures { Told allocated_paper (λ a. Allocate arena.old n r tag a arena.new) result (handle.new ∷ []) }
{
    let answer = allocate(arena, n, r, tag);
    *handle = answer.map_or(0, |h| h.0);
    number(&answer)
}

#[unsafe(no_mangle)]
pub extern "C" fn ds_standing(
    arena: &[u32],
    handle: u32,
    standing: &mut u32,
    n: &mut u32,
    r: &mut u32,
    tag: &mut u32,
) -> u32
    ensures { Told stood_paper (λ a. AskStanding arena.now handle a arena.now) result (standing.new ∷ n.new ∷ r.new ∷ tag.new ∷ []) }
{
    let answer = drawing::ask::standing(arena, Handle(handle));
    // C has the standing as a number.
    let (kind, shape) = match answer {
        Ok(Standing::None) | Err(_) => (0, Shape::default()),
        Ok(Standing::Outside) => (1, Shape::default()),
        Ok(Standing::Free) => (2, Shape::default()),
        Ok(Standing::Taken(shape)) => (3, shape),
    };
    *standing = kind;
    *n = shape.n;
    *r = shape.r;
    *tag = u32::from(shape.tag);
    number(&answer)
}

#[unsafe(no_mangle)]
pub extern "C" fn ds_shape(
    arena: &[u32],
    handle: u32,
    n: &mut u32,
    r: &mut u32,
    tag: &mut u32,
) -> u32
    ensures { Told shaped_paper (λ a. AskShape arena.now handle a arena.now) result (n.new ∷ r.new ∷ tag.new ∷ []) }
{
    let answer = shape(arena, Handle(handle));
    let shape = answer.unwrap_or_default();
    *n = shape.n;
    *r = shape.r;
    *tag = u32::from(shape.tag);
    number(&answer)
}

// Reads and writes of each kind: C has a name for each.
#[unsafe(no_mangle)]
pub extern "C" fn ds_read_reference(arena: &[u32], handle: u32, field: u32, value: &mut u32) -> u32
    ensures { Told read_paper (λ a. ReadReference arena.now handle field a arena.now) result (value.new ∷ []) }
{
    told(read_reference(arena, Handle(handle), field), value)
}

#[unsafe(no_mangle)]
pub extern "C" fn ds_write_reference(arena: &mut [u32], handle: u32, field: u32, value: u32) -> u32
    ensures { Told written_paper (λ a. WriteReference arena.old handle field value a arena.new) result [] }
{
    number(&write_reference(arena, Handle(handle), field, value))
}

#[unsafe(no_mangle)]
pub extern "C" fn ds_read_plain(arena: &[u32], handle: u32, field: u32, value: &mut u32) -> u32
    ensures { Told read_paper (λ a. ReadPlain arena.now handle field a arena.now) result (value.new ∷ []) }
{
    told(read_plain(arena, Handle(handle), field), value)
}

#[unsafe(no_mangle)]
pub extern "C" fn ds_write_plain(arena: &mut [u32], handle: u32, field: u32, value: u32) -> u32
    ensures { Told written_paper (λ a. WritePlain arena.old handle field value a arena.new) result [] }
{
    number(&write_plain(arena, Handle(handle), field, value))
}

// A part cannot be handed to C: its place in the arena is, in words.
#[unsafe(no_mangle)]
pub extern "C" fn ds_plain_words(
    arena: &[u32],
    handle: u32,
    offset: &mut usize,
    count: &mut usize,
) -> u32
    ensures { PlainPlace arena.now handle result offset.new count.new }
{
    let answer = plain_place(arena, Handle(handle));
    let place = answer.unwrap_or_default();
    *offset = place.at.0;
    *count = place.count as usize;
    number(&answer)
}

#[unsafe(no_mangle)]
pub extern "C" fn ds_room(arena: &[u32], cls: u32, room: &mut u32) -> u32
    ensures { Told room_paper (λ a. AskRoom arena.now cls a arena.now) result (room.new ∷ []) }
{
    told(drawing::ask::room(arena, cls), room)
}

#[unsafe(no_mangle)]
pub extern "C" fn ds_collect(
    arena: &mut [u32],
    roots: &[u32],
    work: &mut [u32],
    count: &mut u32,
) -> u32
    ensures { Told collected_paper (λ a. Collect arena.old roots.now work.old a arena.new work.new) result (count.new ∷ []) }
{
    told(collect(arena, roots, work), count)
}
