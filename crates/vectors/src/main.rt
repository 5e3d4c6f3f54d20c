// Answers the stored questions of the independent reference, one line each.
//
// A question is a line of numbers, each of eight hex digits, and the first three are its kind, VL and features. A module
// has some kinds and says at its head what their questions and answers are: it reads what more the question has, and
// writes the answer.
#![tactic(auto)]

mod forms;
mod generator;
mod kind;
mod lines;
mod machines;
mod runs;
mod steps;
mod stretches;

use kind::Kind;
use setting::Setting;
use std::io;

// One question and its answer; an error where the input ends, or has a kind that no module answers.
fn answer_next(rt: &HostRuntime) -> io::Result<()> {
    let [kind, vl, features] = lines::read::<3>(rt)?;
    let setting = Setting { vl, features };
    match Kind::try_from(kind)? {
        Kind::Read => forms::read(rt, setting),
        Kind::Write { form } => forms::write(rt, setting, form),
        Kind::Step => steps::answer(rt, setting),
        Kind::Conflict => stretches::conflict(rt, setting),
        Kind::Run => runs::answer(rt, setting),
        Kind::Permission => stretches::permission(rt, setting),
    }
}

// The loop has a bound that no input reaches, since a proved loop ends.
fn main(rt: HostRuntime) {
    for _ in 0..u64::MAX {
        if answer_next(&rt).is_err() {
            return;
        }
    }
}
