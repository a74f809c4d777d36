// The hand program: what a person types at the store, answered line by line.
//
// The input comes in pieces, cut anywhere. Its bytes are gathered into a line of at most 81, so that a
// line of any length takes no more room: with 81 bytes it is too long, whatever follows. Each line is answered
// as soon as its end is there, and before the next read, since a person waits for it. What a line means stands
// in crate lines, what a call gives in crate model; the words of an answer stand in module say.
//
// Shown here of each piece, behind what is held of the line before it: every line that ends is answered by the
// call that it means (specs/Orders), and what is held is the line that goes on (specs/Held). The text of an
// answer is its words, byte by byte (specs/Answers), and that text is what is written. What the system reads and
// writes is not shown.
#![tactic(auto)]

ghost use Rattle.std.specs.Prelude.{◌≡◌, ◌≤◌, [], length};
ghost use Rattle.lines.specs.Line.{meaning};
ghost use Rattle.typed.specs.Held.{joined, TookByte, TookBytes, Ended};
ghost use Rattle.typed.specs.Orders.{Obeyed, Answered};

use arrayvec::ArrayVec;
use drawing::allocate::allocate;
use drawing::collect::collect;
use drawing::make::make;
use drawing::reference::write_reference;
use lines::{Order, read_line};
use model::{Handle, Refusal};
use std::io;
use std::io::{Read, Write};

mod say;

// The answer to a line.
#[derive(Clone, Copy, Debug, PartialEq, Eq)]
pub enum Answer {
    Allocated(Result<Handle, Refusal>),
    Written(Result<(), Refusal>),
    Collected(Result<u32, Refusal>),
    BadLine,
}

// What is held of the line that is being typed.
type Line = ArrayVec<u8, 81>;

// Makes the call that a line means.
fn obey(arena: &mut [u32], list: &mut [u32], text: &[u8]) -> Answer
    ensures { Obeyed (meaning text.now) arena.old list.old result arena.new list.new }
{
    let order = read_line(text);
    match order {
        Some(Order::Allocate(n, r, tag)) => Answer::Allocated(allocate(arena, n, r, tag)),
        Some(Order::Link(h, f, v)) => Answer::Written(write_reference(arena, Handle(h), f, v)),
        Some(Order::Collect(ref roots)) => Answer::Collected(collect(
            arena,
            roots.as_slice(),
            list,
        )),
        None => Answer::BadLine,
    }
}

// Holds a byte of a line where there is room for it.
fn hold(line: &mut Line, byte: u8)
    ensures { line.new.items ≡ joined 81 line.old.items byte }
{
    if !line.is_full() {
        line.push(byte);
    }
}

// The store that is typed at, and what is held of the line that is being typed.
#[derive(Drop)]
struct Session<'a, W> {
    output: &'a mut W,
    arena: &'a mut [u32],
    list: &'a mut [u32],
    line: Line,
    ghost held: { length line.items ≤ 81 },
}

impl<W: Write> Session<'_, W> {
    // Answers a line.
    fn answer_line(&mut self, text: &[u8]) -> io::Result<()>
        ensures line { self.new.line.items ≡ self.old.line.items }
        ensures answered { Answered (meaning text.now) self.old.arena.now self.old.list.now self.new.arena.now self.new.list.now }
    {
        let list = &mut *self.list;
        let answer = obey(self.arena, list, text);
        say::answer(self.output, answer, list)
    }

    // Takes one byte in: the end of a line has it answered.
    fn take_byte(&mut self, byte: u8) -> io::Result<()>
        ensures { TookByte 81 self.old.line.items self.old.arena.now self.old.list.now byte self.new.line.items self.new.arena.now self.new.list.now }
    {
        if byte != b'\n' {
            hold(&mut self.line, byte);
            return Ok(());
        }
        let line = self.line.take();
        self.answer_line(&line)
    }

    // Takes bytes in, until an answer cannot be written.
    fn take_bytes(&mut self, bytes: &[u8]) -> io::Result<()>
        ensures { TookBytes 81 self.old.line.items self.old.arena.now self.old.list.now bytes.now result self.new.line.items self.new.arena.now self.new.list.now }
    {
        for &byte in bytes {
            self.take_byte(byte)?;
        }
        Ok(())
    }

    // The input has ended: bytes that are held are a line without its newline.
    fn end(&mut self) -> io::Result<()>
        ensures empty { self.new.line.items ≡ [] }
        ensures ended { Ended self.old.line.items self.old.arena.now self.old.list.now self.new.arena.now self.new.list.now }
    {
        let line = self.line.take();
        if line.is_empty() {
            return Ok(());
        }
        self.answer_line(&line)
    }

    // Answers what is typed, until the input ends or an answer cannot be written. A read that fails is the end of the
    // input. A proved loop has to end, and nothing says that the input does: no run uses up so many turns.
    fn run<R: Read>(&mut self, input: &mut R) -> io::Result<()> {
        for _ in 0..u64::MAX {
            let mut bytes = [0u8; 4096];
            match input.read(&mut bytes) {
                Ok(0) | Err(_) => return self.end(),
                Ok(n) => self.take_bytes(&bytes[..n])?,
            }
        }
        Ok(())
    }
}

// Makes an arena of two segments, and answers what is typed until the input ends or an answer cannot be written.
pub fn run<R: Read, W: Write>(input: &mut R, output: &mut W, arena: &mut [u32], list: &mut [u32]) {
    let _made = make(arena, 2);
    let line = Line::new();
    let mut session = Session {
        output,
        arena,
        list,
        line,
    };
    let _written = session.run(input);
}
