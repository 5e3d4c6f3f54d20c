// PEXT on a lent predicate file. The source is read first; then the destination's slot is lent on, so no other byte can change.
#![tactic(auto)]

mod operands;

ghost use Rattle.std.specs.Prelude.{◌≡◌, false, MatchOption, ◌/◌, ◌<◌, length};
ghost use Rattle.element.specs.Units.{size_at};
ghost use Rattle.element.specs.Contents.{elem};
ghost use Rattle.element.specs.Slots.{slot, set_slot};
ghost use Rattle.element.specs.Files.{predicate_file};
ghost use Rattle.counter.specs.Portion.{portion_of};
ghost use Rattle.pext.specs.Pext.{pext_ready, pext_leaves};
ghost use Rattle.pext.specs.Private.{Portion, Accepted};
ghost use Rattle.pext.specs.Points.{Claims};

use counter::Counter;
use operands::Operands;

// The operands, where the file and each of them are as they must be.
fn accepted(
    bytes: usize,
    vl: u32,
    log: u32,
    first: u32,
    portions: u32,
    pn: u32,
    pd: u32,
) -> Option<Operands>
    ensures { MatchOption result (pext_ready bytes vl (size_at log) first portions pn pd ≡ false) (λ o. Accepted o bytes vl log first portions pn pd) }
{
    if (bytes == element::PREDICATE_FILE)
        & setting::length_allowed(vl)
        & (log < 4)
        & ((portions == 1) | (portions == 2))
        & ((first as u64) + (portions as u64) <= 4)
        & ((pn < 16) & (pd < 16))
    {
        Some(Operands {
            log,
            first,
            portions,
            pn,
            pd,
        })
    } else {
        None
    }
}

// The counter in Pn: its low two bytes, whatever the length.
fn source(p: &[u8], pn: u32) -> Counter
    requires { (length p.now ≡ predicate_file) × (pn < 16) }
    ensures { result.0 ≡ elem 2 0 (slot 32 2 pn p.now) }
{
    let a = 32 * (pn as usize);
    counter::counter_of(&p[a..a + 2])
}

// A portion into Pd.
fn put(p: &mut [u8], c: Counter, vl: u32, log: u32, portion: u32, pd: u32)
    requires { Portion (length p.old) vl log portion pd }
    ensures { p.new ≡ set_slot 32 (vl / 64) pd (portion_of vl (size_at log) portion c.0) p.old }
{
    let n = (vl / 64) as usize;
    let d = 32 * (pd as usize);
    counter::extract(c, vl, log, portion, &mut p[d..d + n]);
}

// Literal lengths, for which LLVM makes straight code. (No const parameter: the last call has any length.)
fn put_at(p: &mut [u8], c: Counter, vl: u32, log: u32, portion: u32, pd: u32)
    requires { Portion (length p.old) vl log portion pd }
    ensures { p.new ≡ set_slot 32 (vl / 64) pd (portion_of vl (size_at log) portion c.0) p.old }
{
    if vl == 2048 {
        put(p, c, 2048, log, portion, pd);
        return;
    }
    if vl == 128 {
        put(p, c, 128, log, portion, pd);
        return;
    }
    if vl == 512 {
        put(p, c, 512, log, portion, pd);
        return;
    }
    put(p, c, vl, log, portion, pd);
}

// PEXT: portions `first` and on, one or two, to Pd and the next. False, and the file as it was, for operands outside their ranges.
// Two calls and no loop: LLVM makes far faster code of them. (A bool and no Result: the clause `answer` holds it.)
pub fn pext(p: &mut [u8], vl: u32, log: u32, first: u32, portions: u32, pn: u32, pd: u32) -> bool
    ensures answer { result ≡ pext_ready (length p.old) vl (size_at log) first portions pn pd }
    ensures file { p.new ≡ pext_leaves vl (size_at log) first portions pn pd p.old }
{
    let Some(o) = accepted(p.len(), vl, log, first, portions, pn, pd) else {
        return false;
    };
    let c = source(p, o.pn);
    put_at(p, c, vl, o.log, o.first, o.pd);
    if o.portions == 2 {
        put_at(p, c, vl, o.log, o.first + 1, (o.pd + 1) % 16);
    }
    true
}

// The theorems about these definitions. It does nothing: its promise has the check demand their proofs.
pub fn claims()
    ensures { Claims }
{}
