// One word of each form, where the place of its row is known: its fields are read, and its operation is done under its access on the
// file that it is lent. PC is left to the caller. The setting is the run's, the scalars move and the word is one's own: no value has them
// together.
ghost use Rattle.std.specs.Prelude.{◌≡◌, ◌-◌, ◌<◌, ◌≤◌, [], ◌∷◌, slice_index};
ghost use Rattle.logic.specs.Pick.{pick};
ghost use Rattle.machine.specs.Private.{PredicateWord, VectorWord, TablelessWord};

use machine::Scalars;
use setting::{Answer, Setting};

// ---- the predicates
// By the row of one portion, or by that of a pair.
pub(crate) fn pext(
    p: &mut [u8],
    setting: Setting,
    scalars: Scalars,
    pair: bool,
    word: u32,
) -> Answer
    ensures { PredicateWord (pick pair 1 0) setting word scalars result p.old p.new }
{
    let o = fields::pext(pair, word);
    words::pext(
        p, setting, scalars.v, scalars.s, o.log, o.first, o.portions, o.counter, o.pd,
    )
}

// W12 to W15, chosen without a jump.
fn index_register(scalars: Scalars, number: u32) -> u32
    requires { (12 ≤ number) × (number < 16) }
    ensures { result ≡ slice_index (scalars.w12 ∷ scalars.w13 ∷ scalars.w14 ∷ scalars.w15 ∷ []) (number - 12) }
{
    let low = if number == 13 {
        scalars.w13
    } else {
        scalars.w12
    };
    let high = if number == 15 {
        scalars.w15
    } else {
        scalars.w14
    };
    if number < 14 { low } else { high }
}

pub(crate) fn psel(p: &mut [u8], setting: Setting, scalars: Scalars, word: u32) -> Answer
    ensures { PredicateWord 2 setting word scalars result p.old p.new }
{
    let o = fields::psel(word);
    let w = index_register(scalars, o.index);
    words::psel(
        p, setting.vl, scalars.v, w, o.log, o.offset, o.pn, o.pm, o.pd,
    )
}

// ---- the vectors
// By the row of consecutive destinations, or by that of each fourth register.
pub(crate) fn luti4<const STRIDED: bool>(
    z: &mut [u8],
    zt: &[u8],
    setting: Setting,
    scalars: Scalars,
    word: u32,
) -> Answer
    ensures { VectorWord (pick STRIDED 4 3) setting word scalars result zt.now z.old z.new }
{
    let o = fields::luti4(STRIDED, word);
    words::luti4(
        z, zt, setting.vl, scalars.s, scalars.t, o.size, o.i1, o.zn, o.zd, o.stride,
    )
}

pub(crate) fn narrow(z: &mut [u8], setting: Setting, scalars: Scalars, word: u32) -> Answer
    ensures { TablelessWord 5 setting word scalars result z.old z.new }
{
    let o = fields::narrow(word);
    words::narrow(
        z, setting.vl, scalars.v, o.op, o.u, o.r, o.t, o.size, o.shift, o.zn, o.zd,
    )
}
