// PSEL on contents: one element of Pm decides whether all of Pn is copied or nothing.
ghost use Rattle.std.specs.Prelude.{◌≡◌, false, ◌+◌, ◌*◌, ◌<◌, ◌≤◌, length, get_or, replicate};
ghost use Rattle.std.specs.Int.Bits.{bit_and};
ghost use Rattle.logic.specs.Pick.{pick};
ghost use Rattle.element.specs.Units.{size_at};
ghost use Rattle.element.specs.Contents.{fill, packed, bit};
ghost use Rattle.psel.specs.Psel.{value_of};
ghost use Rattle.psel.specs.Private.{ElementReady};

use crate::operands::Operands;

// Bit i of a predicate.
fn test(s: &[u8], i: usize) -> bool
    requires { i < 8 * length s.now }
    ensures { result ≡ bit i s.now }
{
    let at = i / 8;
    let x = (s[at] >> ((i % 8) as u32)) % 2;
    x == 1
}

// The chosen element of Pm.
pub(crate) fn value(pm: &[u8], vl: u32, o: Operands) -> bool
    requires { ElementReady vl o.log (length pm.now) }
    ensures { result ≡ value_of vl (size_at o.log) (o.w + o.offset) pm.now }
{
    let unit = index::unit(vl, o.log, o.w, o.offset);
    let i = unit.index << o.log;
    test(pm, i as usize)
}

// Each byte under its pattern.
fn masked(s: &[u8], m: &[u8; 32], o: &mut [u8])
    requires { (length s.now ≡ length o.old) × (length o.old ≤ 32) }
    ensures { o.new ≡ fill (λ k. bit_and (get_or s.now k 0) (get_or m.now k 0)) 1 (length o.old) }
{
    for k in 0..o.len() {
        o[k] = s[k] & m[k];
    }
}

// The pattern that keeps no bit of a register, and the one that keeps every bit.
static KEPT: [[u8; 32]; 2] = [[0; 32], [255; 32]];

// The pattern for a value. Read from a table: of an `if` LLVM makes a branch on the element (docs/DECISIONS.md 75).
fn kept(v: bool) -> &'static [u8; 32]
    ensures { result.now ≡ replicate 32 (pick v 255 0) }
{
    &KEPT[usize::from(v)]
}

// All of Pn, if the value is true, else zeros; no branch, so that no value is to be foreseen.
pub(crate) fn copied_if(v: bool, pn: &[u8], o: &mut [u8])
    requires { (length pn.now ≡ length o.old) × (length o.old ≤ 32) }
    ensures { o.new ≡ pick v pn.now (packed (λ b. false) (length o.old)) }
{
    masked(pn, kept(v), o);
}
