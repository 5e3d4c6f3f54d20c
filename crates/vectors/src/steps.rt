// A step of a machine that a seed makes: kind 7.
//
// A question: kind, VL, features, word; then the sixteen numbers that the machine is made from (`machines`). An answer:
// document 01's number, and what `machines` tells.
use crate::machines::{Start, Told};
use crate::{lines, machines};
use setting::Setting;
use std::io;

pub(crate) fn answer(rt: &HostRuntime, setting: Setting) -> io::Result<()> {
    let word = lines::number(rt)?;
    let start = Start::from(lines::read(rt)?);
    let scalars = start.scalars;
    let (stepped, hashes) = machines::after(start, |z, p, zt| {
        console::step_through(z, p, zt, scalars, setting, word)
    });
    let answer = setting::number(stepped.answer);
    println!(rt; "{answer:08x} {} {hashes}", Told(stepped.scalars))
}
