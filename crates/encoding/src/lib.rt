// Layouts, instructions, and what decode and encode mean: the only place that knows a word's bits. `decoder` and `encoder` go by it.
#![tactic(auto)]

pub mod table;

ghost use Rattle.std.specs.Prelude.{◌≡◌};
ghost use Rattle.encoding.specs.Instructions.{narrow_number};
ghost use Rattle.encoding.specs.Rows.{place_of};
ghost use Rattle.encoding.specs.Claims.{Claims};

// A word's fields as read: element size and register numbers. No variant is a refusal.
#[derive(Clone, Copy, Debug, PartialEq, Eq)]
pub enum Instruction {
    // One or two portions of a counter's mask, from the first on.
    Pext {
        size: u32,
        first: u32,
        portions: u32,
        counter: u32,
        pd: u32,
    },
    Psel {
        size: u32,
        offset: u32,
        index: u32,
        pn: u32,
        pm: u32,
        pd: u32,
    },
    Luti4c {
        size: u32,
        i1: u32,
        zn: u32,
        zd: u32,
    },
    Luti4s {
        size: u32,
        i1: u32,
        zn: u32,
        zd: u32,
    },
    // The sixteen narrowing words, by document 004's bits.
    Narrow {
        op: bool,
        u: bool,
        r: bool,
        t: bool,
        size: u32,
        shift: u32,
        zn: u32,
        zd: u32,
    },
}

// The place of an instruction's row in the table.
pub fn place(instruction: Instruction) -> usize
    ensures { result ≡ place_of instruction }
{
    match instruction {
        Instruction::Pext { portions, .. } => if portions == 2 { 1 } else { 0 },
        Instruction::Psel { .. } => 2,
        Instruction::Luti4c { .. } => 3,
        Instruction::Luti4s { .. } => 4,
        Instruction::Narrow { .. } => 5,
    }
}

// A narrowing word's op:U:R:T as one number.
pub fn narrow_number(op: bool, u: bool, r: bool, t: bool) -> u32
    ensures { result ≡ narrow_number op u r t }
{
    8 * (op as u32) + (4 * (u as u32) + (2 * (r as u32) + (t as u32)))
}

// The theorems about these definitions. It does nothing: its promise has the check demand their proofs.
pub fn claims()
    ensures { Claims }
{}
