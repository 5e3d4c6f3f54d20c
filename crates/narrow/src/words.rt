// The sixteen words on elements of W bytes, by their class. Each call of the loops has literals (src/elements.rt says why).
// A word's bits and fields stay parameters of their own: tried as structs, they went through memory: UQSHRNB S at VL 128 took
// 1.28 of the archive before, for 0.74 without (the bar of issue 16 is 1.05).
// What `ChunksReady` and `Prepared` ask is of the file and the numbers of a call together, no one value's: they stay clauses.
ghost use Rattle.std.specs.Prelude.{◌≡◌, true, false, length, ◌/◌};
ghost use Rattle.narrow.specs.Private.{Middle, Chunks, ChunksReady, chunks_of};

use crate::elements::{narrow_chunks, narrow_cut};

// UQSHRNB and UQRSHRNB, with the number of chunks a literal at each length, for which the compiler makes straight code. It takes VL 128,
// 256 and 2048 into the run's loop, and to 8 bits the lengths between them too.
#[inline(always)]
pub(crate) fn even_saturated<const W: usize>(
    z: &mut [u8],
    n: usize,
    r: bool,
    shift: u32,
    zn: usize,
    zd: usize,
)
    requires chunks { ChunksReady (length z.old) n (16 / W) W shift zn zd }
    requires length { Chunks n }
    ensures { z.new ≡ chunks_of n (16 / W) W true true r false shift zn zd z.old }
{
    if n == 16 {
        return narrow_chunks::<W, true, true>(z, 2, 128 / W, r, false, shift, zn, zd);
    }
    if n == 2 {
        return narrow_chunks::<W, true, true>(z, 1, 32 / W, r, false, shift, zn, zd);
    }
    if n == 1 {
        return narrow_chunks::<W, true, true>(z, 1, 16 / W, r, false, shift, zn, zd);
    }
    if W == 2 {
        return middle::<W>(z, n, r, shift, zn, zd);
    }
    middle_apart::<W>(z, n, r, shift, zn, zd);
}

// The same at the middle lengths, VL 512 and 1024. To 8 bits in the run's loop too: a call adds more than half of a word's time.
#[inline(always)]
fn middle<const W: usize>(z: &mut [u8], n: usize, r: bool, shift: u32, zn: usize, zd: usize)
    requires chunks { ChunksReady (length z.old) n (16 / W) W shift zn zd }
    requires length { Middle n }
    ensures { z.new ≡ chunks_of n (16 / W) W true true r false shift zn zd z.old }
{
    // by its order: a fourth equality makes a switch of them, whose jump takes up to as long as a word
    if n > 4 {
        return narrow_chunks::<W, true, true>(z, 1, 128 / W, r, false, shift, zn, zd);
    }
    narrow_chunks::<W, true, true>(z, 1, 64 / W, r, false, shift, zn, zd);
}

// The same out of the run's loop: to 16 and 32 bits it would slow down the words there that do not narrow (docs/DECISIONS.md).
#[inline(never)]
fn middle_apart<const W: usize>(z: &mut [u8], n: usize, r: bool, shift: u32, zn: usize, zd: usize)
    requires chunks { ChunksReady (length z.old) n (16 / W) W shift zn zd }
    requires length { Middle n }
    ensures { z.new ≡ chunks_of n (16 / W) W true true r false shift zn zd z.old }
{
    middle::<W>(z, n, r, shift, zn, zd);
}

// Each word at each length: out of the run's loop, as `middle_apart` is.
#[inline(never)]
pub(crate) fn narrow_any<const W: usize>(
    z: &mut [u8],
    n: usize,
    op: bool,
    u: bool,
    r: bool,
    t: bool,
    shift: u32,
    zn: usize,
    zd: usize,
)
    requires { ChunksReady (length z.old) n (16 / W) W shift zn zd }
    ensures { z.new ≡ chunks_of n (16 / W) W op u r t shift zn zd z.old }
{
    if u {
        if op {
            return unsigned_words::<W, true>(z, n, r, t, shift, zn, zd);
        }
        return unsigned_words::<W, false>(z, n, r, t, shift, zn, zd);
    }
    if op {
        return signed_words::<W, true>(z, n, r, t, shift, zn, zd);
    }
    signed_words::<W, false>(z, n, r, t, shift, zn, zd);
}

// With OP the words UQSHRN and UQRSHRN, whose B words come by `even_saturated` alone; else SHRN and RSHRN.
fn unsigned_words<const W: usize, const OP: bool>(
    z: &mut [u8],
    n: usize,
    r: bool,
    t: bool,
    shift: u32,
    zn: usize,
    zd: usize,
)
    requires { ChunksReady (length z.old) n (16 / W) W shift zn zd }
    ensures { z.new ≡ chunks_of n (16 / W) W OP true r t shift zn zd z.old }
{
    if t {
        return narrow_cut::<W, OP, true>(z, n, r, true, shift, zn, zd);
    }
    narrow_cut::<W, OP, true>(z, n, r, false, shift, zn, zd);
}

// With OP the words SQSHRN and SQRSHRN, else SQSHRUN and SQRSHRUN.
fn signed_words<const W: usize, const OP: bool>(
    z: &mut [u8],
    n: usize,
    r: bool,
    t: bool,
    shift: u32,
    zn: usize,
    zd: usize,
)
    requires { ChunksReady (length z.old) n (16 / W) W shift zn zd }
    ensures { z.new ≡ chunks_of n (16 / W) W OP false r t shift zn zd z.old }
{
    if r {
        if t {
            return narrow_cut::<W, OP, false>(z, n, true, true, shift, zn, zd);
        }
        return narrow_cut::<W, OP, false>(z, n, true, false, shift, zn, zd);
    }
    if t {
        return narrow_cut::<W, OP, false>(z, n, false, true, shift, zn, zd);
    }
    narrow_cut::<W, OP, false>(z, n, false, false, shift, zn, zd);
}
