// The word of an instruction whose fields are in range: its layout's fixed bits, and each field at its place.
ghost use Rattle.std.specs.Prelude.{◌≡◌, true, ◌+◌, ◌-◌, ◌*◌, ◌/◌, ◌%◌, ◌<◌, ◌≤◌};
ghost use Rattle.encoding.specs.Layout.{word_of, fixed_of};
ghost use Rattle.encoding.specs.Instructions.{raw_psel_bits, in_range, raw_of};
ghost use Rattle.encoding.specs.Rows.{row_of};

use element::log_of;
use encoding::{Instruction, narrow_number, table};

// PSEL's i1:tszh:tszl.
fn psel_bits(size: u32, offset: u32) -> u32
    requires { raw_psel_bits size offset < 32 }
    ensures { result ≡ raw_psel_bits size offset }
{
    offset * (size / 4) + size / 8
}

// Both layouts of PEXT have their fields at the same places; the immediate is imm2 or i1.
fn pext(raw: u32, immediate: u32, counter: u32, pd: u32) -> u32
    requires { (raw < 4) × (immediate < 4) × (8 ≤ counter) × (counter < 16) × (pd < 16) }
    ensures { result ≡ raw * 0x400000 + immediate * 0x100 + (counter - 8) * 32 + pd }
{
    raw * 0x400000 + immediate * 0x100 + (counter - 8) * 32 + pd
}

fn psel(bits: u32, index: u32, pn: u32, pm: u32, pd: u32) -> u32
    requires { (bits < 32) × (12 ≤ index) × (index < 16) × (pn < 16) × (pm < 16) × (pd < 16) }
    ensures { result ≡ bits / 8 * 0x400000 + bits % 8 * 0x40000 + (index - 12) * 0x10000 + pn * 0x400 + pm * 32 + pd }
{
    bits / 8 * 0x400000 + bits % 8 * 0x40000 + (index - 12) * 0x10000 + pn * 0x400 + pm * 32 + pd
}

// Both layouts of LUTI4 have the first destination's number in the word's low five bits.
fn luti(raw: u32, i1: u32, zn: u32, zd: u32) -> u32
    requires { (raw < 4) × (i1 < 2) × (zn < 32) × (zd < 32) }
    ensures { result ≡ i1 * 0x10000 + raw * 0x1000 + zn * 32 + zd }
{
    i1 * 0x10000 + raw * 0x1000 + zn * 32 + zd
}

// The bits are op:U:R:T.
fn narrow(bits: u32, size: u32, shift: u32, zn: u32, zd: u32) -> u32
    requires { (bits < 16) × (size ≤ 32) × (shift ≤ size) × (2 * size - shift < 64) × (zn < 32) × (zd < 32) }
    ensures { result ≡ (2 * size - shift) / 32 * 0x400000 + (2 * size - shift) % 32 * 0x10000 + bits * 0x400 + zn * 32 + zd }
{
    let raw = 2 * size - shift;
    raw / 32 * 0x400000 + raw % 32 * 0x10000 + bits * 0x400 + zn * 32 + zd
}

// The fields alone, each at its place.
fn fields_of(instruction: Instruction) -> u32
    requires { in_range instruction ≡ true }
    ensures { fixed_of (row_of instruction).layout + result ≡ word_of (row_of instruction).layout (raw_of instruction) }
{
    match instruction {
        Instruction::Pext {
            size,
            first,
            portions,
            counter,
            pd,
        } => pext(log_of(size), first / portions, counter, pd),
        Instruction::Psel {
            size,
            offset,
            index,
            pn,
            pm,
            pd,
        } => psel(psel_bits(size, offset), index, pn, pm, pd),
        Instruction::Luti4c { size, i1, zn, zd } => luti(log_of(size), i1, zn, zd),
        Instruction::Luti4s { size, i1, zn, zd } => luti(log_of(size), i1, zn, zd),
        Instruction::Narrow {
            op,
            u,
            r,
            t,
            size,
            shift,
            zn,
            zd,
        } => narrow(narrow_number(op, u, r, t), size, shift, zn, zd),
    }
}

pub(crate) fn word_of(instruction: Instruction) -> u32
    requires { in_range instruction ≡ true }
    ensures { result ≡ word_of (row_of instruction).layout (raw_of instruction) }
{
    let fixed = table::fixed_bits(encoding::place(instruction));
    fixed + fields_of(instruction)
}
