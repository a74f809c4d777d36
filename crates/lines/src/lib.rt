// What a person types at the hand program, line by line.
//
// A line is a letter and numbers, each after exactly one space: `N n r tag`, `L handle field value`, or `K` and
// at most 16 roots. The text alone decides what it means; whatever is not of that form is a bad line. The
// meaning of a text is given by its fields, parted by spaces (specs/Line), and shown here is that reading a
// line finds exactly that.
#![tactic(auto)]

ghost use Rattle.std.specs.Prelude.{◌≡◌, true, false, ◌+◌, ◌-◌, ◌*◌, ◌<◌, ◌≤◌, ◌&&◌, map, length, SomeIff, MatchOption, leb};
ghost use Rattle.lines.specs.Line.{is_digit, is_number, fields, all_numbers, value, said, meaning, order_meaning};

use arrayvec::ArrayVec;
use std::marker::Model;

// The numbers behind a letter: at most so many.
type Numbers = ArrayVec<u32, 16>;

// The roots of a collection. Words past them are 0, so that equal roots are equal words.
#[derive(Clone, Copy, Debug, PartialEq, Eq)]
pub struct Roots {
    words: [u32; 16],
    count: usize,
}

impl Model for Roots {
    ghost use Rattle.std.specs.Prelude.{◌≡◌, ℕ, ◌-◌, ◌≤◌, List, ◌++◌, length, take, drop, replicate};
    ghost use Rattle.std.proofs.Common.{arith, length-take-le};
    ghost use Rattle.lines.specs.Roots.{filled};

    ghost Value = { List ℕ };

    ghost view = { λ r. take r.count r.words };

    ghost invariant = { λ r. (r.count ≤ 16) × (length r.words ≡ 16) × (drop r.count r.words ≡ replicate (16 - r.count) 0) };

    ghost inverse = { λ ns. record { words = ns ++ replicate (16 - length ns) 0; count = length ns } };

    ghost inverse_ok = { λ r h i. record {
      words = filled r.count r.words h.0 h.1 h.2 i;
      count = length-take-le r.count r.words (omega (arith, h.0, h.1)) i;
    } };
}

impl Roots {
    pub fn of(roots: &[u32]) -> Roots
        requires { length roots.now ≤ 16 }
        ensures { result ≡ roots.now }
    {
        let count = roots.len();
        let mut words = [0; 16];
        words[..count].copy_from_slice(roots);
        Roots { words, count }
    }

    pub fn as_slice(&self) -> &[u32]
        ensures value { result.now ≡ self.now }
        ensures fits { length result.now ≤ 16 }
    {
        &self.words[..self.count]
    }
}

// What a line asks for.
#[derive(Clone, Copy, Debug, PartialEq, Eq)]
pub enum Order {
    Allocate(u32, u32, u8),
    Link(u32, u32, u32),
    Collect(Roots),
}

fn digit(byte: u8) -> Option<u32>
    ensures { SomeIff result (is_digit byte ≡ true) (byte - 48) }
{
    match byte {
        b'0'..=b'9' => Some(u32::from(byte - b'0')),
        _ => None,
    }
}

// A value with a digit more behind it, where it is below 2^32.
fn more(v: u32, digit: u32) -> Option<u32>
    ensures { SomeIff result (10 * v + digit < 4294967296) (10 * v + digit) }
{
    v.checked_mul(10)?.checked_add(digit)
}

// The value of a field that is a number. Not `parse`, which takes a `+` in front.
fn number(field: &[u8]) -> Option<u32>
    ensures { SomeIff result (is_number field.now ≡ true) (value field.now) }
{
    if field.is_empty() {
        return None;
    }
    let mut v: u32 = 0;
    for &byte in field {
        v = more(v, digit(byte)?)?;
    }
    Some(v)
}

// The numbers of a text, parted by spaces, if there are no more than 16.
fn numbers(text: &[u8]) -> Option<Numbers>
    ensures { MatchOption result ((all_numbers (fields text.now) && leb (length (fields text.now)) 16) ≡ false)
        (λ ns. (all_numbers (fields text.now) ≡ true) × (ns.items ≡ map value (fields text.now))) }
{
    let mut all = Numbers::new();
    for field in text.split(|&b| b == b' ') {
        all.try_push(number(field)?).ok()?;
    }
    Some(all)
}

// What a letter and numbers ask for.
fn order_of(letter: u8, numbers: Numbers) -> Option<Order>
    ensures { order_meaning result ≡ said letter numbers.items }
{
    match (letter, numbers.as_slice()) {
        (b'N', &[n, r, tag]) => Some(Order::Allocate(n, r, u8::try_from(tag).ok()?)),
        (b'L', &[h, f, v]) => Some(Order::Link(h, f, v)),
        (b'K', _) => Some(Order::Collect(Roots::of(&numbers))),
        _ => None,
    }
}

// Reads a line.
pub fn read_line(text: &[u8]) -> Option<Order>
    ensures { order_meaning result ≡ meaning text.now }
{
    if 80 < text.len() {
        return None;
    }
    match text {
        [letter] => order_of(*letter, Numbers::new()),
        [letter, b' ', behind @ ..] => order_of(*letter, numbers(behind)?),
        _ => None,
    }
}
