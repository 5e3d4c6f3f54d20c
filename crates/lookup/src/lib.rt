// LUTI4 on a lent vector file.
#![tactic(auto)]

mod operands;
mod table;

ghost use Rattle.std.specs.Prelude.{◌≡◌, false, MatchOption, length};
ghost use Rattle.lookup.specs.Calls.{four_fit, luti4_ready, luti4_file};
ghost use Rattle.lookup.specs.Private.{Accepted};
ghost use Rattle.lookup.specs.Claims.{Claims};

use operands::Operands;

// Whether four destinations are consecutive or strided and all registers: no sum, so that none wraps.
fn four_fit(first: u32, stride: u32) -> bool
    ensures { result ≡ four_fit first stride }
{
    if stride == 1 {
        return first < 29;
    }
    (stride == 4) & (first < 20)
}

// The operands, where the files and each of them are as they must be.
fn accepted(
    z: usize,
    zt: usize,
    vl: u32,
    size: u32,
    i1: u32,
    zn: u32,
    first: u32,
    stride: u32,
) -> Option<Operands>
    ensures { MatchOption result (luti4_ready z zt vl size i1 zn first stride ≡ false) (λ o. Accepted o z zt vl size i1 zn first stride) }
{
    let lengths = (z == element::VECTOR_FILE)
        & (zt == element::TABLE_FILE)
        & setting::length_allowed(vl);
    let fields = ((size == 16) | (size == 32)) & (i1 < 2) & (zn < 32);
    if lengths & fields & four_fit(first, stride) {
        Some(Operands {
            vl: vl as usize,
            size: size as usize,
            i1: i1 as usize,
            zn: zn as usize,
            first: first as usize,
            stride: stride as usize,
        })
    } else {
        None
    }
}

// LUTI4 into the four registers Z(first + stride * r). False, and nothing is written, for an argument outside its range.
// (A bool and no Result: the clause `value` holds it.)
pub fn luti4(
    z: &mut [u8],
    zt: &[u8],
    vl: u32,
    size: u32,
    i1: u32,
    zn: u32,
    first: u32,
    stride: u32,
) -> bool
    ensures value { result ≡ luti4_ready (length z.old) (length zt.now) vl size i1 zn first stride }
    ensures z_after { z.new ≡ luti4_file vl size i1 zn first stride zt.now z.old }
{
    let Some(o) = accepted(z.len(), zt.len(), vl, size, i1, zn, first, stride) else {
        return false;
    };
    table::luti4_file(z, zt.as_array().unwrap(), o);
    true
}

// The theorems about these definitions. It does nothing: its promise has the check demand their proofs.
pub fn claims()
    ensures { Claims }
{}
