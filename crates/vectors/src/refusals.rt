// Every refusal number of every call, and where two apply, that the lower one is given.
// Each function takes the arenas by itself: & and &mut say which call alters them.
use crate::{arenas, print};
use drawing::{allocate, ask, collect, make, plain, reference};
use model::{Handle, Refusal};
use std::io;

// A call for each of the arguments, with its answer printed.
fn calls<A: Copy, T: Drop, F: FnMut(A) -> Result<T, Refusal>>(
    rt: &impl Print,
    arguments: &[A],
    mut call: F,
) -> io::Result<()>
    requires { F.IsAlwaysCallable call }
{
    for &a in arguments {
        print::answer(rt, &call(a))?;
    }
    Ok(())
}

fn make(rt: &impl Print, arena: &mut [u32]) -> io::Result<()> {
    print!(rt; "make:")?;
    calls(rt, &[0, 65, 2, 1], |segments| make::make(arena, segments))?;
    println!(rt)
}

// The one segment is of another class, so that there is no room for a block of 1,023 words. 3 before 4, and 2
// before 3 and 4.
fn allocate(rt: &impl Print, arena: &mut [u32]) -> io::Result<()> {
    arenas::fresh(arena);
    print!(rt; "allocate:")?;
    calls(
        rt,
        &[(1024, 0), (1, 2), (1023, 0)],
        |(n, r)| allocate::allocate(arena, n, r, 7),
    )?;
    print!(rt; ", first")?;
    calls(
        rt,
        &[(1023, 1024)],
        |(n, r)| allocate::allocate(arena, n, r, 7),
    )?;
    arenas::spoil(arena);
    calls(
        rt,
        &[(1024, 0), (1023, 0)],
        |(n, r)| allocate::allocate(arena, n, r, 7),
    )?;
    println!(rt)
}

// 2 before 5, and 2 before 3.
fn ask(rt: &impl Print, sound: &[u32], unsound: &[u32]) -> io::Result<()> {
    let shape = |(arena, h): (&[u32], u32)| ask::shape(arena, Handle(h));
    print!(rt; "standing:")?;
    print::answer(rt, &ask::standing(sound, Handle(2)))?;
    print::answer(rt, &ask::standing(unsound, Handle(1)))?;
    print!(rt; "\nshape:")?;
    calls(rt, &[(sound, 1), (sound, 0), (sound, 2)], shape)?;
    print!(rt; ", first")?;
    calls(rt, &[(unsound, 2)], shape)?;
    println!(rt)
}

fn room(rt: &impl Print, sound: &[u32], unsound: &[u32]) -> io::Result<()> {
    let room = |(arena, class): (&[u32], u32)| ask::room(arena, class);
    print!(rt; "room:")?;
    calls(rt, &[(sound, 4), (sound, 2), (sound, 13)], room)?;
    print!(rt; ", first")?;
    calls(rt, &[(unsound, 2)], room)?;
    println!(rt)
}

// 5 before 6, 2 before 5 and 6.
fn read_reference(rt: &impl Print, sound: &[u32], unsound: &[u32]) -> io::Result<()> {
    let read = |(arena, h, f): (&[u32], u32, u32)| reference::read_reference(arena, Handle(h), f);
    print!(rt; "read reference:")?;
    calls(rt, &[(sound, 1, 1), (sound, 2, 0), (sound, 1, 2)], read)?;
    print!(rt; ", first")?;
    calls(rt, &[(sound, 2, 2), (unsound, 2, 0), (unsound, 1, 2)], read)?;
    println!(rt)
}

// As read_reference, but for the text, the call and two fields: a function over these four would be no shorter.
fn read_plain(rt: &impl Print, sound: &[u32], unsound: &[u32]) -> io::Result<()> {
    let read = |(arena, h, f): (&[u32], u32, u32)| plain::read_plain(arena, Handle(h), f);
    print!(rt; "read plain:")?;
    calls(rt, &[(sound, 1, 0), (sound, 2, 0), (sound, 1, 1)], read)?;
    print!(rt; ", first")?;
    calls(rt, &[(sound, 2, 1), (unsound, 2, 0), (unsound, 1, 1)], read)?;
    println!(rt)
}

// Without a number: 1 where there are plain words, 0 where the part is empty.
fn plain_words(rt: &impl Print, sound: &[u32], unsound: &[u32]) -> io::Result<()> {
    print!(rt; "plain words:")?;
    for (arena, h) in [(sound, 1), (sound, 2), (unsound, 1)] {
        let part = plain::plain_words(arena, Handle(h));
        print::number(rt, u32::from(!part.is_empty()))?;
    }
    println!(rt)
}

// 5 before 6 and 7, 6 before 7, 2 before each.
fn write_reference(rt: &impl Print, sound: &mut [u32], unsound: &mut [u32]) -> io::Result<()> {
    let places = [(1, 0, 1), (2, 0, 0), (1, 2, 0), (1, 0, 2)];
    print!(rt; "write reference:")?;
    calls(
        rt,
        &places,
        |(h, f, v)| reference::write_reference(sound, Handle(h), f, v),
    )?;
    let places = [(2, 2, 0), (2, 0, 2), (1, 2, 2)];
    print!(rt; ", first")?;
    calls(
        rt,
        &places,
        |(h, f, v)| reference::write_reference(sound, Handle(h), f, v),
    )?;
    let places = [(2, 0, 0), (1, 2, 0), (1, 0, 2)];
    calls(
        rt,
        &places,
        |(h, f, v)| reference::write_reference(unsound, Handle(h), f, v),
    )?;
    println!(rt)
}

// As write_reference, but for the text, the call and the places.
fn write_plain(rt: &impl Print, sound: &mut [u32], unsound: &mut [u32]) -> io::Result<()> {
    let places = [(1, 0, u32::MAX), (2, 0, 0), (1, 1, 0)];
    print!(rt; "write plain:")?;
    calls(
        rt,
        &places,
        |(h, f, v)| plain::write_plain(sound, Handle(h), f, v),
    )?;
    print!(rt; ", first")?;
    calls(
        rt,
        &[(2, 1, 0)],
        |(h, f, v)| plain::write_plain(sound, Handle(h), f, v),
    )?;
    calls(
        rt,
        &[(2, 0, 0), (1, 1, 0)],
        |(h, f, v)| plain::write_plain(unsound, Handle(h), f, v),
    )?;
    println!(rt)
}

// 8 before 9, 2 before each.
fn collect(
    rt: &impl Print,
    sound: &mut [u32],
    unsound: &mut [u32],
    list: &mut [u32],
) -> io::Result<()> {
    let none: &mut [u32] = &mut [];
    print!(rt; "collect:")?;
    print::answer(rt, &collect::collect(sound, &[1, 0], list))?;
    print::answer(rt, &collect::collect(sound, &[2], list))?;
    print::answer(rt, &collect::collect(sound, &[1], none))?;
    print!(rt; ", first")?;
    print::answer(rt, &collect::collect(sound, &[2], none))?;
    print::answer(rt, &collect::collect(unsound, &[2], list))?;
    print::answer(rt, &collect::collect(unsound, &[1], none))?;
    println!(rt)
}

pub fn all(
    rt: &impl Print,
    sound: &mut [u32],
    unsound: &mut [u32],
    list: &mut [u32],
) -> io::Result<()> {
    make(rt, sound)?;
    allocate(rt, unsound)?;
    arenas::fresh(sound);
    arenas::fresh(unsound);
    arenas::spoil(unsound);
    ask(rt, sound, unsound)?;
    room(rt, sound, unsound)?;
    read_reference(rt, sound, unsound)?;
    read_plain(rt, sound, unsound)?;
    plain_words(rt, sound, unsound)?;
    write_reference(rt, sound, unsound)?;
    write_plain(rt, sound, unsound)?;
    collect(rt, sound, unsound, list)
}
