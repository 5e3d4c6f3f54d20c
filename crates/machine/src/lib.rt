// The scalar record, and what a step and a run answer. What they mean, and the theorems about it, stand in specs/ and proofs/; the
// crate `interpreter` does it.
#![tactic(auto)]

ghost use Rattle.machine.specs.Claims.{Claims};

use setting::Answer;

// W12 to W15 and PC, with the access flags: V, vector access open; S, streaming on and open; T, ZT0 on and open.
#[repr(C)]
#[derive(Clone, Copy)]
pub struct Scalars {
    pub w12: u32,
    pub w13: u32,
    pub w14: u32,
    pub w15: u32,
    pub pc: u64,
    pub v: bool,
    pub s: bool,
    pub t: bool,
}

// A step's answer; the record comes back by value where the word is refused too (document 01), so no Result of it.
#[derive(Clone, Copy)]
pub struct Stepped {
    pub answer: Answer,
    pub scalars: Scalars,
}

// The answer of a run, and how many words were done: of a refused run too (document 01), so no Result of them.
#[derive(Clone, Copy)]
pub struct Ran {
    pub answer: Answer,
    pub done: usize,
    pub scalars: Scalars,
}

// The theorems about these definitions. It does nothing: its promise has the check demand their proofs.
pub fn claims()
    ensures { Claims }
{}
