// The arenas of the examples, and the handles of the blocks in them.
use drawing::allocate::allocate;
use drawing::make::make;
use model::Handle;

// Makes an arena of one segment, with one block of two references and one plain word: handle 1.
pub fn fresh(arena: &mut [u32]) {
    let _made = make(arena, 1);
    let _block = allocate(arena, 3, 2, 7);
}

// Gives an arena a place that no sound arena has.
pub fn spoil(arena: &mut [u32]) {
    if 1 < arena.len() {
        arena[1] = 1;
    }
}

// The handle that an allocation gives: 0, as C is told, where it is refused.
pub fn given(arena: &mut [u32], n: u32, r: u32, tag: u8) -> Handle {
    allocate(arena, n, r, tag).unwrap_or(Handle(0))
}
