// Document 01's examples, run: the expected numbers stand in the file stdout.
#![tactic(auto)]

use drawing::allocate::allocate;
use drawing::ask::shape;
use drawing::collect::collect;
use drawing::make::make;
use drawing::reference::write_reference;
use model::Handle;
use std::io;

mod arenas;
mod print;
mod refusals;

fn handle(rt: &impl Print, arena: &mut [u32], n: u32) -> io::Result<()> {
    print::number(rt, arenas::given(arena, n, 0, 0).0)
}

// "Four blocks with n = 1,023 get handles 1 to 4, the fifth is refused with 4, and after collecting with root 3 the next gets 1."
fn four(rt: &impl Print, arena: &mut [u32], list: &mut [u32]) -> io::Result<()> {
    let _made = make(arena, 1);
    print!(rt; "n 1024: refused")?;
    print::answer(rt, &allocate(arena, 1024, 0, 7))?;
    print!(rt; "\nn 1023:")?;
    for _ in 0..4 {
        handle(rt, arena, 1023)?;
    }
    print!(rt; ", fifth refused")?;
    print::answer(rt, &allocate(arena, 1023, 0, 7))?;
    print!(rt; ", after root 3")?;
    let _live = collect(arena, &[3], list);
    handle(rt, arena, 1023)?;
    println!(rt)
}

// A block of the list: its handle and its tag.
fn leaf(rt: &impl Print, arena: &[u32], h: u32) -> io::Result<()> {
    let tag = shape(arena, Handle(h)).map_or(0, |s| s.tag);
    print!(rt; " {h} tag {tag},")
}

// Joins the two leaves to the panel, the left one twice, and lists the drawing.
fn panel(
    rt: &impl Print,
    arena: &mut [u32],
    list: &mut [u32],
    panel: Handle,
    left: Handle,
    right: Handle,
) -> io::Result<()> {
    for (f, part) in [left, right, left].iter().enumerate() {
        let _written = write_reference(arena, panel, f as u32, part.0);
    }
    let live = collect(arena, &[panel.0], list).unwrap_or(0);
    for &h in list.iter().take(live as usize) {
        leaf(rt, arena, h)?;
    }
    println!(rt)
}

// The wall panel of the two leaves, its blocks allocated in two orders: the lists name the same leaves place by place.
fn panel_first(rt: &impl Print, arena: &mut [u32], list: &mut [u32]) -> io::Result<()> {
    let _made = make(arena, 1);
    print!(rt; "panel first:")?;
    let p = arenas::given(arena, 3, 3, 7);
    let left = arenas::given(arena, 3, 0, 8);
    let right = arenas::given(arena, 3, 0, 9);
    panel(rt, arena, list, p, left, right)
}

// The order of the allocations is what differs, and what is shown.
fn panel_last(rt: &impl Print, arena: &mut [u32], list: &mut [u32]) -> io::Result<()> {
    let _made = make(arena, 1);
    print!(rt; "panel last:")?;
    let right = arenas::given(arena, 3, 0, 9);
    let left = arenas::given(arena, 3, 0, 8);
    let p = arenas::given(arena, 3, 3, 7);
    panel(rt, arena, list, p, left, right)
}

fn run(rt: &impl Print, arena: &mut [u32], other: &mut [u32], list: &mut [u32]) -> io::Result<()> {
    four(rt, arena, list)?;
    refusals::all(rt, arena, other, list)?;
    panel_first(rt, arena, list)?;
    panel_last(rt, arena, list)
}

fn main(rt: HostRuntime) -> io::Result<()> {
    let mut arena = [0u32; 4175];
    let mut other = [0u32; 4175];
    let mut list = [0u32; 4096];
    run(&rt, &mut arena, &mut other, &mut list)
}
