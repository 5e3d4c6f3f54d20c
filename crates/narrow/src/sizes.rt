// The words at each size. UQSHRNB and UQRSHRNB are taken into the run's loop, and the others left in functions: all sixteen in the run's
// loop would slow down the words that do not narrow (docs/DECISIONS.md).
ghost use Rattle.std.specs.Prelude.{◌≡◌, length, ◌/◌};
ghost use Rattle.logic.specs.Pick.{pick};
ghost use Rattle.element.specs.Size.{is_result};
ghost use Rattle.element.specs.Slots.{slot, set_slot};
ghost use Rattle.narrowing.specs.Narrowing.{form};
ghost use Rattle.narrowing.specs.Registers.{narrow_of};
ghost use Rattle.narrow.specs.Private.{Chunks, ChunksReady, chunks_of, NarrowReady};

use crate::words;

// Elements of W bytes.
fn narrow_sized<const W: usize>(
    z: &mut [u8],
    n: usize,
    op: bool,
    u: bool,
    r: bool,
    t: bool,
    shift: u32,
    zn: usize,
    zd: usize,
)
    requires chunks { ChunksReady (length z.old) n (16 / W) W shift zn zd }
    requires length { Chunks n }
    ensures { z.new ≡ chunks_of n (16 / W) W op u r t shift zn zd z.old }
{
    if op & u & !t {
        return words::even_saturated::<W>(z, n, r, shift, zn, zd);
    }
    words::narrow_any::<W>(z, n, op, u, r, t, shift, zn, zd);
}

// False, and nothing is written, for another size. No length has 32 chunks, and the remainder says so to the compiler.
pub(crate) fn narrow_file(
    z: &mut [u8],
    vl: usize,
    op: bool,
    u: bool,
    r: bool,
    t: bool,
    size: u32,
    shift: u32,
    zn: usize,
    zd: usize,
) -> bool
    requires { NarrowReady (length z.old) vl size shift zn zd }
    ensures value { result ≡ is_result size }
    ensures z_after { z.new ≡ pick (is_result size) (set_slot 256 (vl / 8) zd (narrow_of (form op u) r t size shift vl (slot 256 (vl / 8) zn z.old) (slot 256 (vl / 8) zd z.old)) z.old) z.old }
{
    let n = vl / 128 % 32;
    if size == 8 {
        narrow_sized::<2>(z, n, op, u, r, t, shift, zn, zd);
        return true;
    }
    if size == 16 {
        narrow_sized::<4>(z, n, op, u, r, t, shift, zn, zd);
        return true;
    }
    if size == 32 {
        narrow_sized::<8>(z, n, op, u, r, t, shift, zn, zd);
        return true;
    }
    false
}
