// PSEL on a lent predicate file. Sources are read first; then the destination's slot is lent on, so no other byte can change.
#![tactic(auto)]

mod operands;
mod selection;

ghost use Rattle.std.specs.Prelude.{◌≡◌, true, false, MatchOption, ◌+◌, ◌/◌, length};
ghost use Rattle.setting.specs.Allowed.{length_allowed};
ghost use Rattle.element.specs.Files.{predicate_file};
ghost use Rattle.element.specs.Units.{size_at};
ghost use Rattle.element.specs.Slots.{slot, set_slot};
ghost use Rattle.psel.specs.Psel.{psel_of, psel_ready, psel_leaves};
ghost use Rattle.psel.specs.Private.{Accepted};
ghost use Rattle.psel.specs.Points.{Claims};

use operands::Operands;

// The operands, where the file and each of them are as they must be.
fn accepted(
    bytes: usize,
    vl: u32,
    log: u32,
    w: u32,
    offset: u32,
    pn: u32,
    pm: u32,
    pd: u32,
) -> Option<Operands>
    ensures { MatchOption result (psel_ready bytes vl (size_at log) offset pn pm pd ≡ false) (λ o. Accepted o bytes vl log w offset pn pm pd) }
{
    if (bytes == element::PREDICATE_FILE)
        & setting::length_allowed(vl)
        & (log < 4)
        & (offset < 16)
        & ((pn < 16) & (pm < 16) & (pd < 16))
    {
        Some(Operands {
            log,
            w,
            offset,
            pn,
            pm,
            pd,
        })
    } else {
        None
    }
}

// Pm's element is read, and Pn's slot is copied (a slice of an array: no heap), before Pd is lent. (The length is no const parameter:
// the calls have its literals either way.)
fn select(p: &mut [u8], vl: u32, o: Operands)
    requires { (length p.old ≡ predicate_file) × (length_allowed vl ≡ true) }
    ensures { p.new ≡ set_slot 32 (vl / 64) o.pd (psel_of vl (size_at o.log) (o.w + o.offset) (slot 32 (vl / 64) o.pn p.old) (slot 32 (vl / 64) o.pm p.old)) p.old }
{
    let n = (vl / 64) as usize;
    let f = 32 * (o.pm as usize);
    let v = selection::value(&p[f..f + n], vl, o);
    let a = 32 * (o.pn as usize);
    let mut s = [0u8; 32];
    s.copy_from_slice(&p[a..a + 32]);
    let d = 32 * (o.pd as usize);
    selection::copied_if(v, &s[..n], &mut p[d..d + n]);
}

// PSEL: all of Pn to Pd if element W + offset of Pm is true, else zeros, the size being 8 · 2^log. False, and the file as it was, for operands outside their ranges.
// (A bool and no Result: the clause `answer` holds it.)
pub fn psel(p: &mut [u8], vl: u32, log: u32, w: u32, offset: u32, pn: u32, pm: u32, pd: u32) -> bool
    ensures answer { result ≡ psel_ready (length p.old) vl (size_at log) offset pn pm pd }
    ensures file { p.new ≡ psel_leaves vl (size_at log) w offset pn pm pd p.old }
{
    let Some(o) = accepted(p.len(), vl, log, w, offset, pn, pm, pd) else {
        return false;
    };
    // literal lengths, so that LLVM makes straight code for them; the last two by their order, since a fourth equality makes it a switch
    if vl == 128 {
        select(p, 128, o);
        return true;
    }
    if vl == 512 {
        select(p, 512, o);
        return true;
    }
    if vl == 2048 {
        select(p, 2048, o);
        return true;
    }
    if vl < 1024 {
        select(p, 256, o);
        return true;
    }
    select(p, 1024, o);
    true
}

// The theorems about these definitions. It does nothing: its promise has the check demand their proofs.
pub fn claims()
    ensures { Claims }
{}
