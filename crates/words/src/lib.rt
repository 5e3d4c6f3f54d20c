// A word's operation under the access that it needs, on the file that it is lent: 4, 5 or 6 with the file as it was, or done. The fields
// come as numbers, and PC is left to the caller. The lists of numbers are the leaves' own, which README.md and docs/ name: a struct between
// would be made for one call and taken apart in the next. A refusal is returned where its flag is tested, and not by `?` of a function's
// answer: LLVM then knows at each end of a word whether it is done (with `?` PEXT took 1.06 to 1.13 and UQRSHRNB B up to 1.40 of the archive
// before, for bars of 1.05 and 1.25).
#![tactic(auto)]

mod access;

ghost use Rattle.std.specs.Prelude.{◌≡◌, [], ◌∷◌};
ghost use Rattle.logic.specs.Pick.{pick};
ghost use Rattle.setting.specs.Allowed.{has_feature};
ghost use Rattle.setting.specs.Numbers.{number_of};
ghost use Rattle.setting.specs.declared.Feature.TheVariants.{Sve2p1};
ghost use Rattle.element.specs.Units.{size_at};
ghost use Rattle.pext.specs.Pext.{pext_leaves};
ghost use Rattle.psel.specs.Psel.{psel_leaves};
ghost use Rattle.lookup.specs.Calls.{luti4_file};
ghost use Rattle.narrowing.specs.Calls.{narrow_file};
ghost use Rattle.machine.specs.Needs.{need, first_failed, if_done};

use setting::{Answer, Refusal, Setting};

pub fn pext(
    p: &mut [u8],
    setting: Setting,
    v: bool,
    s: bool,
    log: u32,
    first: u32,
    portions: u32,
    pn: u32,
    pd: u32,
) -> Answer
    ensures answer { number_of result ≡ first_failed (pick (has_feature setting.features Sve2p1) (need 4 v) (need 5 s) ∷ []) }
    ensures file { p.new ≡ if_done (number_of result) (pext_leaves setting.vl (size_at log) first portions pn pd p.old) p.old }
{
    if !access::open(setting.features, v, s) {
        return Err(access::closed(setting.features));
    }
    pext::pext(p, setting.vl, log, first, portions, pn, pd);
    Ok(())
}

pub fn psel(
    p: &mut [u8],
    vl: u32,
    v: bool,
    w: u32,
    log: u32,
    offset: u32,
    pn: u32,
    pm: u32,
    pd: u32,
) -> Answer
    ensures answer { number_of result ≡ pick v 0 4 }
    ensures file { p.new ≡ if_done (number_of result) (psel_leaves vl (size_at log) w offset pn pm pd p.old) p.old }
{
    if !v {
        return Err(Refusal::VectorsClosed);
    }
    psel::psel(p, vl, log, w, offset, pn, pm, pd);
    Ok(())
}

pub fn luti4(
    z: &mut [u8],
    zt: &[u8],
    vl: u32,
    s: bool,
    t: bool,
    size: u32,
    i1: u32,
    zn: u32,
    first: u32,
    stride: u32,
) -> Answer
    ensures answer { number_of result ≡ pick s (pick t 0 6) 5 }
    ensures file { z.new ≡ if_done (number_of result) (luti4_file vl size i1 zn first stride zt.now z.old) z.old }
{
    if !s {
        return Err(Refusal::StreamingClosed);
    }
    if !t {
        return Err(Refusal::TableClosed);
    }
    lookup::luti4(z, zt, vl, size, i1, zn, first, stride);
    Ok(())
}

pub fn narrow(
    z: &mut [u8],
    vl: u32,
    v: bool,
    op: bool,
    u: bool,
    r: bool,
    t: bool,
    size: u32,
    shift: u32,
    zn: u32,
    zd: u32,
) -> Answer
    ensures answer { number_of result ≡ pick v 0 4 }
    ensures file { z.new ≡ if_done (number_of result) (narrow_file vl op u r t size shift zn zd z.old) z.old }
{
    if !v {
        return Err(Refusal::VectorsClosed);
    }
    narrow::narrow(z, vl, op, u, r, t, size, shift, zn, zd);
    Ok(())
}
