// What a word touches, as bits: one for each register.
ghost use Rattle.std.specs.Prelude.{◌≡◌, true, map, [], ◌∷◌, ◌+◌, ◌*◌, ◌<◌};
ghost use Rattle.encoding.specs.Instructions.{in_range};
ghost use Rattle.machine.specs.Effects.{effect_of};
ghost use Rattle.stretch.specs.declared.touch.Register.TheVariants.{Vector};
ghost use Rattle.stretch.specs.Private.{IsThere, AllThere, register_as, register_bit, bits_of, touch_by, reading_as, reading_of, clashes};

use self::Register::{Index, Predicate, Table, Vector};
use encoding::Instruction;
use setting::{Refusal, Setting};

// A register that a word may touch: Z0 to Z31, P0 to P15, ZT0, W12 to W15 (a clause, `IsThere`: an enum takes no ghost field, and a
// struct around it would be built at each register and matched through in `bit`).
#[derive(Clone, Copy)]
enum Register {
    Vector(u32),
    Predicate(u32),
    Table,
    Index(u32),
}

impl Register {
    // Its bit: the vectors have the lowest, and the banks follow one another.
    fn bit(self) -> u64
        requires { IsThere self }
        ensures { result ≡ register_bit (register_as self) }
    {
        let place = match self {
            Vector(k) => k,
            Predicate(k) => 32 + k,
            Table => 48,
            Index(k) => 37 + k,
        };
        1 << place
    }
}

// The bits of some registers.
fn bits(registers: &[Register]) -> u64
    requires { AllThere registers.now }
    ensures { result ≡ bits_of (map register_as registers.now) }
{
    let mut bits = 0;
    for register in registers {
        bits |= register.bit();
    }
    bits
}

// The registers that a word writes, and all that it reads or writes.
#[derive(Clone, Copy, Default)]
pub(crate) struct Touch {
    writes: u64,
    touched: u64,
}

// Four vectors, so far apart.
fn four_vectors(first: u32, gap: u32) -> [Register; 4]
    requires { first + 3 * gap < 32 }
    ensures { result ≡ Vector first ∷ Vector (first + gap) ∷ Vector (first + 2 * gap) ∷ Vector (first + 3 * gap) ∷ [] }
{
    [
        Vector(first),
        Vector(first + gap),
        Vector(first + 2 * gap),
        Vector(first + 3 * gap),
    ]
}

// Document 01's table, "What a word touches".
fn touch_of(instruction: Instruction) -> Touch
    requires { in_range instruction ≡ true }
    ensures { result ≡ touch_by (effect_of instruction).reads (effect_of instruction).writes }
{
    match instruction {
        Instruction::Pext {
            portions: 2,
            counter,
            pd,
            ..
        } => Touch::new(
            &[Predicate(counter)],
            &[Predicate(pd), Predicate((pd + 1) % 16)],
        ),
        Instruction::Pext { counter, pd, .. } => Touch::new(
            &[Predicate(counter)],
            &[Predicate(pd)],
        ),
        Instruction::Psel {
            index,
            pn,
            pm,
            pd,
            ..
        } => Touch::new(
            &[Predicate(pn), Predicate(pm), Index(index)],
            &[Predicate(pd)],
        ),
        Instruction::Luti4c { zn, zd, .. } => Touch::new(
            &[Vector(zn), Table],
            &four_vectors(zd, 1),
        ),
        Instruction::Luti4s { zn, zd, .. } => Touch::new(
            &[Vector(zn), Table],
            &four_vectors(zd, 4),
        ),
        Instruction::Narrow {
            t: true,
            zn,
            zd,
            ..
        } => Touch::new(&[Vector(zn), Vector(zd)], &[Vector(zd)]),
        Instruction::Narrow { zn, zd, .. } => Touch::new(&[Vector(zn)], &[Vector(zd)]),
    }
}

impl Touch {
    // What a word touches under a setting.
    pub(crate) fn read(setting: Setting, word: u32) -> Result<Touch, Refusal>
        ensures { reading_as result ≡ reading_of setting word }
    {
        Ok(touch_of(decoder::decode(setting, word)?))
    }

    fn new(reads: &[Register], writes: &[Register]) -> Touch
        requires reads { AllThere reads.now }
        requires writes { AllThere writes.now }
        ensures { result ≡ touch_by (map register_as reads.now) (map register_as writes.now) }
    {
        let writes = bits(writes);
        Touch {
            writes,
            touched: bits(reads) | writes,
        }
    }

    // Whether one writes a register that the other reads or writes.
    pub(crate) fn clashes(self, other: Touch) -> bool
        ensures { result ≡ clashes self other }
    {
        (self.writes & other.touched != 0) | (other.writes & self.touched != 0)
    }
}
