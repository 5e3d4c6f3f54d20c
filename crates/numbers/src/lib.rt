// An instruction as seven numbers, and back. A form that is not in the table, and a list of another length, are out of range.
#![tactic(auto)]

ghost use Rattle.std.specs.Prelude.{◌≡◌};
ghost use Rattle.setting.specs.Numbers.{accept};
ghost use Rattle.logic.specs.Pick.{pick};
ghost use Rattle.encoding.specs.declared.Instruction.TheVariants.{Luti4c, Luti4s};
ghost use Rattle.encoding.specs.Decode.{decoded_as};
ghost use Rattle.numbers.specs.Fields.{numbers_of, numbers_into, narrow_at, instruction_at, instruction_of};
ghost use Rattle.numbers.specs.Claims.{Claims};

use encoding::{Instruction, narrow_number};
use setting::Refusal;

fn numbers(instruction: Instruction) -> [u32; 7]
    ensures { result ≡ numbers_of instruction }
{
    match instruction {
        Instruction::Pext {
            size,
            first,
            portions,
            counter,
            pd,
        } => [7, size, first, portions, counter, pd, 0],
        Instruction::Psel {
            size,
            offset,
            index,
            pn,
            pm,
            pd,
        } => [2, size, offset, index, pn, pm, pd],
        Instruction::Luti4c { size, i1, zn, zd } => [3, size, i1, zn, zd, 0, 0],
        Instruction::Luti4s { size, i1, zn, zd } => [4, size, i1, zn, zd, 0, 0],
        Instruction::Narrow {
            op,
            u,
            r,
            t,
            size,
            shift,
            zn,
            zd,
        } => [6, narrow_number(op, u, r, t), size, shift, zn, zd, 0],
    }
}

// Into a buffer of seven; another stays as it was.
pub fn put(instruction: Instruction, out: &mut [u32])
    ensures { out.new ≡ numbers_into instruction out.old }
{
    if out.len() != 7 {
        return;
    }
    out.copy_from_slice(&numbers(instruction));
}

fn luti4(strided: bool, size: u32, i1: u32, zn: u32, zd: u32) -> Result<Instruction, Refusal>
    ensures { decoded_as result ≡ accept (pick strided (Luti4s size i1 zn zd) (Luti4c size i1 zn zd)) }
{
    if strided {
        return Ok(Instruction::Luti4s { size, i1, zn, zd });
    }
    Ok(Instruction::Luti4c { size, i1, zn, zd })
}

// The bits are op:U:R:T.
fn narrow(bits: u32, size: u32, shift: u32, zn: u32, zd: u32) -> Result<Instruction, Refusal>
    ensures { decoded_as result ≡ narrow_at bits size shift zn zd }
{
    if bits < 16 {
        return Ok(Instruction::Narrow {
            op: bits / 8 % 2 == 1,
            u: bits / 4 % 2 == 1,
            r: bits / 2 % 2 == 1,
            t: bits % 2 == 1,
            size,
            shift,
            zn,
            zd,
        });
    }
    Err(Refusal::OutOfRange)
}

// The instruction of a form with these fields; a form has at most six. A form's number is the C interface's (`instruction_of`): no enum.
fn named(form: u32, a: u32, b: u32, c: u32, d: u32, e: u32, f: u32) -> Result<Instruction, Refusal>
    ensures { decoded_as result ≡ instruction_at form a b c d e f }
{
    match form {
        2 => Ok(Instruction::Psel {
            size: a,
            offset: b,
            index: c,
            pn: d,
            pm: e,
            pd: f,
        }),
        3 => luti4(false, a, b, c, d),
        4 => luti4(true, a, b, c, d),
        6 => narrow(a, b, c, d, e),
        7 => Ok(Instruction::Pext {
            size: a,
            first: b,
            portions: c,
            counter: d,
            pd: e,
        }),
        _ => Err(Refusal::OutOfRange),
    }
}

pub fn instruction(fields: &[u32]) -> Result<Instruction, Refusal>
    ensures { decoded_as result ≡ instruction_of fields.now }
{
    let [form, a, b, c, d, e, f] = fields else {
        return Err(Refusal::OutOfRange);
    };
    named(*form, *a, *b, *c, *d, *e, *f)
}

// The theorems about these definitions. It does nothing: its promise has the check demand their proofs.
pub fn claims()
    ensures { Claims }
{}
