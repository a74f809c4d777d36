// Numbers on standard output, each after a space.
use model::Refusal;
use std::io;

pub fn number(rt: &impl Print, v: u32) -> io::Result<()> {
    print!(rt; " {v}")
}

// The refusal number of an answer, 0 for a grant.
pub fn answer<T>(rt: &impl Print, answer: &Result<T, Refusal>) -> io::Result<()> {
    number(rt, numbers::number(answer))
}
