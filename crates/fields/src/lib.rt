// The fields that each row reads of a word, whether it matches or not, and the instruction of a form with these fields.
#![tactic(auto)]

ghost use Rattle.std.specs.Prelude.{◌≡◌, ◌+◌, ◌*◌, ◌/◌, ◌%◌, ◌^◌};
ghost use Rattle.setting.specs.Numbers.{accept};
ghost use Rattle.logic.specs.Pick.{pick};
ghost use Rattle.encoding.specs.Instructions.{narrow_size};
ghost use Rattle.encoding.specs.Rows.{rows};
ghost use Rattle.encoding.specs.Decode.{read_at};
ghost use Rattle.element.specs.Units.{size_at};
ghost use Rattle.fields.specs.Operands.{pext_as, psel_as, luti4_as, narrow_as};

use encoding::Instruction;

// PEXT's, whose size is 8 · 2^log.
#[derive(Clone, Copy)]
pub struct PextOperands {
    pub log: u32,
    pub first: u32,
    pub portions: u32,
    pub counter: u32,
    pub pd: u32,
}

// PSEL's, by the log too; one of 4 or more is no size's.
#[derive(Clone, Copy)]
pub struct PselOperands {
    pub log: u32,
    pub offset: u32,
    pub index: u32,
    pub pn: u32,
    pub pm: u32,
    pub pd: u32,
}

// LUTI4's; the destinations are `stride` apart, 1 in the consecutive layout and 4 in the strided one: a number that the
// operation multiplies by, and no kind.
#[derive(Clone, Copy)]
pub struct LutiOperands {
    pub size: u32,
    pub i1: u32,
    pub zn: u32,
    pub zd: u32,
    pub stride: u32,
}

// The narrowing words'; the size is the result's.
#[derive(Clone, Copy)]
pub struct NarrowOperands {
    pub op: bool,
    pub u: bool,
    pub r: bool,
    pub t: bool,
    pub size: u32,
    pub shift: u32,
    pub zn: u32,
    pub zd: u32,
}

// 0 where the log is no size's (no Option: the definition of this name has 0).
fn size_at(log: u32) -> u32
    ensures { result ≡ size_at log }
{
    if log < 4 { 8 << log } else { 0 }
}

impl From<PextOperands> for Instruction {
    ghost from_gives = { λ o i. i ≡ pext_as o };

    fn from(o: PextOperands) -> Instruction {
        Instruction::Pext {
            size: size_at(o.log),
            first: o.first,
            portions: o.portions,
            counter: o.counter,
            pd: o.pd,
        }
    }
}

impl From<PselOperands> for Instruction {
    ghost from_gives = { λ o i. i ≡ psel_as o };

    fn from(o: PselOperands) -> Instruction {
        Instruction::Psel {
            size: size_at(o.log),
            offset: o.offset,
            index: o.index,
            pn: o.pn,
            pm: o.pm,
            pd: o.pd,
        }
    }
}

impl From<LutiOperands> for Instruction {
    ghost from_gives = { λ o i. i ≡ luti4_as o };

    fn from(o: LutiOperands) -> Instruction {
        let LutiOperands {
            size,
            i1,
            zn,
            zd,
            ..
        } = o;
        if o.stride == 4 {
            Instruction::Luti4s { size, i1, zn, zd }
        } else {
            Instruction::Luti4c { size, i1, zn, zd }
        }
    }
}

impl From<NarrowOperands> for Instruction {
    ghost from_gives = { λ o i. i ≡ narrow_as o };

    fn from(o: NarrowOperands) -> Instruction {
        Instruction::Narrow {
            op: o.op,
            u: o.u,
            r: o.r,
            t: o.t,
            size: o.size,
            shift: o.shift,
            zn: o.zn,
            zd: o.zd,
        }
    }
}

// PSEL's tszh:tszl. Three numbers of the page differ from `narrow_tsz`: as parameters they would say less than the page's own.
fn psel_tsz(word: u32) -> u32
    ensures { result ≡ word / 0x400000 % 2 * 8 + word / 0x40000 % 8 }
{
    word / 0x400000 % 2 * 8 + word / 0x40000 % 8
}

// LUTI4's size, in both layouts: a field of two bits.
fn luti_size(word: u32) -> u32
    ensures { result ≡ 8 * 2 ^ (word / 0x1000 % 4) }
{
    8 << (word / 0x1000 % 4)
}

// The narrowing words' tszh:tszl, and the result size that it says.
fn narrow_tsz(word: u32) -> u32
    ensures { result ≡ word / 0x400000 % 2 * 4 + word / 0x80000 % 4 }
{
    word / 0x400000 % 2 * 4 + word / 0x80000 % 4
}

fn narrow_size(tsz: u32) -> u32
    ensures { result ≡ narrow_size tsz }
{
    if tsz < 2 {
        return 8;
    }
    if tsz < 4 { 16 } else { 32 }
}

// By the row of one portion, or by that of a pair.
pub fn pext(pair: bool, word: u32) -> PextOperands
    ensures { accept (pext_as result) ≡ read_at rows (pick pair 1 0) word }
{
    let log = word / 0x400000 % 4;
    let counter = 8 + word / 32 % 8;
    let pd = word % 16;
    if pair {
        let first = 2 * (word / 0x100 % 2);
        return PextOperands {
            log,
            first,
            portions: 2,
            counter,
            pd,
        };
    }
    PextOperands {
        log,
        first: word / 0x100 % 4,
        portions: 1,
        counter,
        pd,
    }
}

// The bits above the lowest that is set, whose place is the log.
fn above_lowest(bits: u32, log: u32) -> u32
    ensures { result ≡ bits / 2 ^ (log + 1) }
{
    bits.unbounded_shr(log) >> 1
}

pub fn psel(word: u32) -> PselOperands
    ensures { accept (psel_as result) ≡ read_at rows 2 word }
{
    let bits = word / 0x800000 % 2 * 16 + psel_tsz(word);
    let log = element::log_of_field(bits);
    let offset = above_lowest(bits, log);
    let index = 12 + word / 0x10000 % 4;
    PselOperands {
        log,
        offset,
        index,
        pn: word / 0x400 % 16,
        pm: word / 32 % 16,
        pd: word % 16,
    }
}

// By the row of consecutive destinations, or by that of strided ones.
pub fn luti4(strided: bool, word: u32) -> LutiOperands
    ensures row { accept (luti4_as result) ≡ read_at rows (pick strided 4 3) word }
    ensures stride { result.stride ≡ pick strided 4 1 }
{
    let size = luti_size(word);
    let i1 = word / 0x10000 % 2;
    let zn = word / 32 % 32;
    if strided {
        let zd = 16 * (word / 16 % 2) + word % 4;
        return LutiOperands {
            size,
            i1,
            zn,
            zd,
            stride: 4,
        };
    }
    let zd = 4 * (word / 4 % 8);
    LutiOperands {
        size,
        i1,
        zn,
        zd,
        stride: 1,
    }
}

pub fn narrow(word: u32) -> NarrowOperands
    ensures { accept (narrow_as result) ≡ read_at rows 5 word }
{
    let tsz = narrow_tsz(word);
    let size = narrow_size(tsz);
    let shift = 2 * size - (tsz * 8 + word / 0x10000 % 8);
    NarrowOperands {
        op: word / 0x2000 % 2 == 1,
        u: word / 0x1000 % 2 == 1,
        r: word / 0x800 % 2 == 1,
        t: word / 0x400 % 2 == 1,
        size,
        shift,
        zn: word / 32 % 32,
        zd: word % 32,
    }
}
