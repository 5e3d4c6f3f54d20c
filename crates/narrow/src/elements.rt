// The elements of a register, a chunk of them at a time. Each call of `narrow_chunks` has literals, so that the compiler makes a loop for
// each: the width and the bits, and at VL 2048 the chunks, two of 128 bytes, for which it makes straight code (docs/DECISIONS.md).
ghost use Rattle.std.specs.Prelude.{◌≡◌, ◌*◌, ◌/◌, ◌≤◌, length};
ghost use Rattle.element.specs.Contents.{elem, fill};
ghost use Rattle.narrowing.specs.Narrowing.{form};
ghost use Rattle.narrowing.specs.Registers.{element};
ghost use Rattle.narrow.specs.Private.{Prepared, ChunksReady, chunks_of};

use crate::bounds::Bounds;
use crate::{bounds, one};

// Each of the n elements of s, narrowed, over those of o.
fn narrow_all<const W: usize, const OP: bool, const U: bool>(
    s: &[u8],
    o: &mut [u8],
    n: usize,
    r: bool,
    t: bool,
    shift: u32,
    a: Bounds,
)
    requires source { length s.now ≡ n * W }
    requires target { length o.old ≡ n * W }
    requires room { n * W ≤ 256 }
    requires word { Prepared OP U r W shift a }
    ensures { o.new ≡ fill (λ e. element (form OP U) r t (4 * W) shift (elem W e s.now) (elem W e o.old)) W n }
{
    for i in 0..n {
        let b = i * W;
        let e = b + W;
        let x = part::read(&s[b..e]);
        let q = one::narrow_one::<W, OP, U>(x, r, shift, a);
        let y = part::read(&o[b..e]);
        let v = one::place::<W>(y, q, t);
        part::write(&mut o[b..e], v);
    }
}

// Each of the n chunks of s, narrowed, over that of o, `per` elements in each.
fn narrow_parts<const W: usize, const OP: bool, const U: bool>(
    s: &[u8],
    o: &mut [u8],
    n: usize,
    per: usize,
    r: bool,
    t: bool,
    shift: u32,
    a: Bounds,
)
    requires source { length s.now ≡ n * (per * W) }
    requires target { length o.old ≡ n * (per * W) }
    requires room { n * (per * W) ≤ 256 }
    requires chunk { per * W ≤ 256 }
    requires word { Prepared OP U r W shift a }
    ensures { o.new ≡ fill (λ e. element (form OP U) r t (4 * W) shift (elem W e s.now) (elem W e o.old)) W (n * per) }
{
    let c = per * W;
    for i in 0..n {
        let b = i * c;
        let e = b + c;
        narrow_all::<W, OP, U>(&s[b..e], &mut o[b..e], per, r, t, shift, a);
    }
}

// The low n chunks of Zn into Zd. Zn may be Zd: its bytes are copied first (a slice of an array: no heap), and then Zd's slot is
// lent once, of which the chunks are parts.
pub(crate) fn narrow_chunks<const W: usize, const OP: bool, const U: bool>(
    z: &mut [u8],
    n: usize,
    per: usize,
    r: bool,
    t: bool,
    shift: u32,
    zn: usize,
    zd: usize,
)
    requires { ChunksReady (length z.old) n per W shift zn zd }
    ensures { z.new ≡ chunks_of n per W OP U r t shift zn zd z.old }
{
    let a = bounds::bounds_of::<W, OP, U>(r, shift);
    let m = n * (per * W);
    let from = 256 * zn;
    let last = from + m;
    let mut s = [0u8; 256];
    s[..m].copy_from_slice(&z[from..last]);
    let to = 256 * zd;
    let end = to + m;
    narrow_parts::<W, OP, U>(&s[..m], &mut z[to..end], n, per, r, t, shift, a);
}

// The n chunks of 16 bytes, in other chunks. To 8 bits, below VL 2048, the elements are one chunk: the compiler would take chunks of 16
// bytes together, which is slower by far (docs/DECISIONS.md).
#[inline(always)]
pub(crate) fn narrow_cut<const W: usize, const OP: bool, const U: bool>(
    z: &mut [u8],
    n: usize,
    r: bool,
    t: bool,
    shift: u32,
    zn: usize,
    zd: usize,
)
    requires { ChunksReady (length z.old) n (16 / W) W shift zn zd }
    ensures { z.new ≡ chunks_of n (16 / W) W OP U r t shift zn zd z.old }
{
    if n == 16 {
        return narrow_chunks::<W, OP, U>(z, 2, 128 / W, r, t, shift, zn, zd);
    }
    if W == 2 {
        return narrow_chunks::<W, OP, U>(z, 1, 8 * n, r, t, shift, zn, zd);
    }
    narrow_chunks::<W, OP, U>(z, n, 16 / W, r, t, shift, zn, zd);
}
