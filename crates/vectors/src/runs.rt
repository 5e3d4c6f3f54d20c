// A run on a machine that a seed makes: kind 9.
//
// A question: kind, VL, features; the sixteen numbers that the machine is made from (`machines`); how many words, and
// the words, the first first. An answer: document 01's number, how many words were done, and what `machines` tells.
use crate::machines::{Start, Told};
use crate::{lines, machines};
use setting::Setting;
use std::io;

// An error also where there are more words than the buffer has places: no question has so many.
pub(crate) fn answer(rt: &HostRuntime, setting: Setting) -> io::Result<()> {
    let start = Start::from(lines::read(rt)?);
    let count = lines::number(rt)?;
    let mut words = [0u32; 520];
    let words = lines::read_list(rt, &mut words, count)?;
    let scalars = start.scalars;
    let (ran, hashes) = machines::after(start, |z, p, zt| {
        interpreter::run(z, p, zt, scalars, setting, words)
    });
    let answer = setting::number(ran.answer);
    let done = ran.done;
    println!(rt; "{answer:08x} {done:08x} {} {hashes}", Told(ran.scalars))
}
