// What a lesson console asks of the machine: a register's bytes, and one step on the scalar record that it lends.
#![tactic(auto)]

ghost use Rattle.std.specs.Prelude.{◌≡◌, ◌*◌, ◌/◌, ◌<◌, ◌≤◌};
ghost use Rattle.setting.specs.Numbers.{number_of};
ghost use Rattle.machine.specs.Machine.{machine};
ghost use Rattle.machine.specs.Step.{step_of, step_as, stepped_as};
ghost use Rattle.console.specs.Parts.{part_of, vector_of, predicate_of};

use machine::{Scalars, Stepped};
use setting::{Answer, Setting};

// A file of registers: its length, how many there are, how many bytes apart, and the bits of VL for each byte of one. What is between
// two starts has room for a register at the greatest VL, which is 2048.
#[derive(Clone, Copy)]
struct Bank {
    length: usize,
    registers: u32,
    gap: usize,
    bits: usize,
    ghost whole: { length ≡ registers * gap },
    ghost some: { 0 < bits },
    ghost room: { 2048 ≤ gap * bits },
}

const VECTORS: Bank = Bank {
    length: element::VECTOR_FILE,
    registers: 32,
    gap: 256,
    bits: 8,
};

const PREDICATES: Bank = Bank {
    length: element::PREDICATE_FILE,
    registers: 16,
    gap: 32,
    bits: 64,
};

impl Bank {
    // A register's bytes, a part of the file; empty for a VL that is not allowed, a register number too high, or a file of another length:
    // no Option, since document 01 has the part empty (`part_of`).
    fn part<'a>(self, file: &'a [u8], vl: u32, register: u32) -> &'a [u8]
        ensures { result.now ≡ part_of self.length self.registers self.gap (vl / self.bits) vl register file.now }
    {
        if !setting::length_allowed(vl) || register >= self.registers || file.len() != self.length {
            return &file[..0];
        }
        let at = self.gap * (register as usize);
        &file[at..at + (vl as usize) / self.bits]
    }
}

// The VL/8 bytes of a Z register, a part of the vector file; empty on refusal. (C calls it and `predicate`, by
// `gighull_vector` and `gighull_predicate`; docs/DECISIONS.md names both.)
pub fn vector<'a>(file: &'a [u8], vl: u32, register: u32) -> &'a [u8]
    ensures { result.now ≡ vector_of file.now vl register }
{
    VECTORS.part(file, vl, register)
}

// The PL/8 bytes of a P register, a part of the predicate file; empty on refusal.
pub fn predicate<'a>(file: &'a [u8], vl: u32, register: u32) -> &'a [u8]
    ensures { result.now ≡ predicate_of file.now vl register }
{
    PREDICATES.part(file, vl, register)
}

// One word. The record is lent, and advanced where it stands: of the scalars a step moves PC alone.
pub fn step_lent(
    z: &mut [u8],
    p: &mut [u8],
    zt: &mut [u8],
    scalars: &mut Scalars,
    setting: Setting,
    word: u32,
) -> Answer
    ensures { step_as (number_of result) z.new p.new zt.new scalars.new ≡ step_of setting word (machine z.old p.old zt.old scalars.old) }
{
    let r = interpreter::step(z, p, zt, *scalars, setting, word);
    scalars.pc = r.scalars.pc;
    r.answer
}

// The same for whoever has the record by value: it stands in a local that is lent.
pub fn step_through(
    z: &mut [u8],
    p: &mut [u8],
    zt: &mut [u8],
    scalars: Scalars,
    setting: Setting,
    word: u32,
) -> Stepped
    ensures { stepped_as result z.new p.new zt.new ≡ step_of setting word (machine z.old p.old zt.old scalars) }
{
    let mut record = scalars;
    let answer = step_lent(z, p, zt, &mut record, setting, word);
    Stepped {
        answer,
        scalars: record,
    }
}
