// Whether each field of an instruction is within its range for writing.
ghost use Rattle.std.specs.Prelude.{◌≡◌};
ghost use Rattle.encoding.specs.Instructions.{in_range, is_offset, pext_in_range, psel_in_range, luti_in_range, narrow_in_range};

use encoding::Instruction;

fn pext(size: u32, first: u32, portions: u32, counter: u32, pd: u32) -> bool
    ensures { result ≡ pext_in_range size first portions counter pd }
{
    element::is_size(size)
        & ((first < 4) & ((portions == 1) | ((portions == 2) & (first % 2 == 0))))
        & ((8 <= counter) & (counter < 16))
        & (pd < 16)
}

// Whether the size is one and the offset below 128 divided by it. A size of 0 divides nothing.
pub fn psel_offset(size: u32, offset: u32) -> bool
    ensures { result ≡ is_offset size offset }
{
    if !element::is_size(size) {
        return false;
    }
    offset < 128 / size
}

fn psel(size: u32, offset: u32, index: u32, pn: u32, pm: u32, pd: u32) -> bool
    ensures { result ≡ psel_in_range size offset index pn pm pd }
{
    psel_offset(size, offset) & ((12 <= index) & (index < 16)) & ((pn < 16) & (pm < 16) & (pd < 16))
}

// What LUTI4's two layouts share; their sizes and destinations are tested before.
fn luti(size: bool, i1: u32, zn: u32, first: bool) -> bool
    ensures { result ≡ luti_in_range size i1 zn first }
{
    size & (i1 < 2) & (zn < 32) & first
}

fn narrow(size: u32, shift: u32, zn: u32, zd: u32) -> bool
    ensures { result ≡ narrow_in_range size shift zn zd }
{
    ((size == 8) | (size == 16) | (size == 32))
        & ((1 <= shift) & (shift <= size))
        & ((zn < 32) & (zd < 32))
}

pub(crate) fn in_range(instruction: Instruction) -> bool
    ensures { result ≡ in_range instruction }
{
    match instruction {
        Instruction::Pext {
            size,
            first,
            portions,
            counter,
            pd,
        } => pext(size, first, portions, counter, pd),
        Instruction::Psel {
            size,
            offset,
            index,
            pn,
            pm,
            pd,
        } => psel(size, offset, index, pn, pm, pd),
        Instruction::Luti4c { size, i1, zn, zd } => {
            luti(
                (size == 16) | (size == 32),
                i1,
                zn,
                (zd % 4 == 0) & (zd <= 28),
            )
        }
        Instruction::Luti4s { size, i1, zn, zd } => {
            luti(size == 16, i1, zn, (zd < 4) | ((16 <= zd) & (zd < 20)))
        }
        Instruction::Narrow {
            size,
            shift,
            zn,
            zd,
            ..
        } => narrow(size, shift, zn, zd),
    }
}
