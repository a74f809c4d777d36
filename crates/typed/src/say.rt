// The answers in words: what is written of an answer is its words, byte by byte (specs/Answers). A text is made first, and its bytes are
// proved, whatever the writer: to write it is then to pass it on, each answer at once, but a granted collection's as its head, its handles in
// pieces, and its newline.
ghost use Rattle.std.specs.Prelude.{◌≡◌, ◌+◌, ◌≤◌, length, OnOk};
ghost use Rattle.std.specs.Io.KnownBytes.{Appends};
ghost use Rattle.typed.specs.Answers.{spelled, numbered, newline, refused_word, allocated_words, written_words, collected_head, collected_words, answer_words};
ghost use Rattle.typed.specs.Orders.{live_count, listed_count};

use crate::Answer;
use arrayvec::ArrayVec;
use itoa::Buffer;
use model::{Handle, Refusal};
use numbers::number;
use std::io;
use std::io::Write;

// The text of an answer but for the handles of a list.
type Text = ArrayVec<u8, 32>;

// The text of at most 256 handles: each is a space and at most ten digits.
type Piece = ArrayVec<u8, 2816>;

// A word, a number in decimal and what ends it: a u32 has at most ten digits.
fn numbered_text(word: &[u8], v: u32, end: &[u8]) -> Text
    requires { length word.now + 10 + length end.now ≤ 32 }
    ensures { result.items ≡ numbered word.now v end.now }
{
    let mut text = Text::new();
    let mut digits = Buffer::new();
    let _word = text.try_extend_from_slice(word);
    let _number = text.try_extend_from_slice(digits.format(v).as_bytes());
    let _end = text.try_extend_from_slice(end);
    text
}

fn refused_text(number: u32) -> Text
    ensures { result.items ≡ numbered refused_word number newline }
{
    numbered_text(b"refused ", number, b"\n")
}

fn allocated_text(a: Result<Handle, Refusal>) -> Text
    ensures { result.items ≡ allocated_words a }
{
    match a {
        Ok(h) => numbered_text(b"block ", h.0, b"\n"),
        Err(_) => refused_text(number(&a)),
    }
}

fn written_text(a: Result<(), Refusal>) -> Text
    ensures { result.items ≡ written_words a }
{
    match a {
        Ok(()) => {
            let mut text = Text::new();
            let _ok = text.try_extend_from_slice(b"ok\n");
            text
        }
        Err(_) => refused_text(number(&a)),
    }
}

// A refusal, or what stands before the handles of a collection.
fn collected_text(a: Result<u32, Refusal>) -> Text
    ensures { result.items ≡ collected_head a }
{
    match a {
        Ok(c) => numbered_text(b"live ", c, b":"),
        Err(_) => refused_text(number(&a)),
    }
}

// Each handle after a space. Not by `numbered_text`: a text of its own for each handle took a third more time.
fn handles_text(handles: &[u32]) -> Piece
    requires { length handles.now ≤ 256 }
    ensures { result.items ≡ spelled handles.now }
{
    let mut text = Piece::new();
    let mut digits = Buffer::new();
    for &h in handles {
        text.push(b' ');
        let _number = text.try_extend_from_slice(digits.format(h).as_bytes());
    }
    text
}

// Writes the handles of a list, which may be more than a text has room for.
fn pieces<W: Write>(output: &mut W, handles: &[u32]) -> io::Result<()>
    ensures { OnOk result (Appends (W.contents output.old) (W.contents output.new) (spelled handles.now)) }
{
    let mut rest = handles;
    // Not `chunks`: its loop has a list of pieces to join, this one what is left.
    while !rest.is_empty() {
        let (piece, behind) = rest.split_at(rest.len().min(256));
        output.write_all(&handles_text(piece))?;
        rest = behind;
    }
    Ok(())
}

// Where blocks are live, the list holds their handles.
fn collected<W: Write>(output: &mut W, a: Result<u32, Refusal>, list: &[u32]) -> io::Result<()>
    requires { live_count a ≤ length list.now }
    ensures { OnOk result (Appends (W.contents output.old) (W.contents output.new) (collected_words a list.now)) }
{
    output.write_all(&collected_text(a))?;
    let Ok(c) = a else {
        return Ok(());
    };
    pieces(output, &list[..c as usize])?;
    output.write_all(b"\n")
}

// Writes an answer.
pub fn answer<W: Write>(output: &mut W, answer: Answer, list: &[u32]) -> io::Result<()>
    requires { listed_count answer ≤ length list.now }
    ensures { OnOk result (Appends (W.contents output.old) (W.contents output.new) (answer_words answer list.now)) }
{
    match answer {
        Answer::Allocated(a) => output.write_all(&allocated_text(a)),
        Answer::Written(a) => output.write_all(&written_text(a)),
        Answer::Collected(a) => collected(output, a, list),
        Answer::BadLine => output.write_all(b"bad line\n"),
    }
}
