// LUTI4 on a lent vector file: the lookups, two elements for each byte of indexes.
ghost use Rattle.std.specs.Prelude.{◌≡◌, ◌+◌, ◌*◌, ◌^◌, ◌≤◌, ◌<◌, length};
ghost use Rattle.element.specs.Contents.{elem, field, fill};
ghost use Rattle.element.specs.Slots.{slot};
ghost use Rattle.element.specs.Files.{vector_file};
ghost use Rattle.lookup.specs.Lookup.{index_bits, destinations, segment_of, luti_file};
ghost use Rattle.lookup.specs.Private.{ElementBytes, Raised, PairsReady, Chunked, SegmentReady};

use crate::operands::Operands;

// The entry of ZT0 at a place.
fn entry(zt: &[u8; 64], i: usize) -> u64
    requires { i < 16 }
    ensures { (result ≡ elem 4 i zt.now) × (result < 4294967296) }
{
    let a = i * 4;
    part::read(&zt[a..a + 4])
}

// 256 to the number of an element's bytes: a literal where LLVM has the width.
fn power<const W: usize>() -> u64
    requires { ElementBytes W }
    ensures { result ≡ 256 ^ W }
{
    1 << (8 * W as u32)
}

// The low bytes of each entry, raised past as many.
fn raised<const W: usize>(zt: &[u8; 64]) -> [u64; 16]
    requires { ElementBytes W }
    ensures { Raised (256 ^ W) zt.now result }
{
    let m = power::<W>();
    let mut t = [0u64; 16];
    for i in 0..16 {
        t[i] = entry(zt, i) % m * m;
    }
    t
}

// Two elements for each byte of indexes, both written at once.
fn pairs<const W: usize>(s: &[u8], zt: &[u8; 64], high: &[u64; 16], o: &mut [u8])
    requires { PairsReady (length s.now) (length o.old) W zt.now high.now }
    ensures { o.new ≡ fill (λ e. elem 4 (field index_bits e s.now) zt.now) W (length s.now * 2) }
{
    let m = power::<W>();
    for (q, b) in s.iter().enumerate() {
        let a = q * (2 * W);
        let r = entry(zt, (b % 16) as usize) % m + high[(b / 16) as usize];
        part::write(&mut o[a..a + 2 * W], r);
    }
}

// The same by 64 bytes of the destination, whose number is a literal, so that LLVM unrolls the loop; fewer at once.
fn look<const W: usize>(s: &[u8], zt: &[u8; 64], high: &[u64; 16], o: &mut [u8])
    requires { PairsReady (length s.now) (length o.old) W zt.now high.now × Chunked (length s.now) W }
    ensures { o.new ≡ fill (λ e. elem 4 (field index_bits e s.now) zt.now) W (length s.now * 2) }
{
    let per = 32 / W;
    if s.len() < per {
        pairs::<W>(s, zt, high, o);
        return;
    }
    for q in 0..s.len() / per {
        let i = q * per;
        let a = q * 64;
        pairs::<W>(&s[i..i + per], zt, high, &mut o[a..a + 64]);
    }
}

// A register's bytes, all 256 of them: LLVM then need not clear the copy.
fn slot_of(z: &[u8], k: usize) -> [u8; 256]
    requires { 256 * k + 256 ≤ length z.now }
    ensures { result ≡ slot 256 256 k z.now }
{
    let a = 256 * k;
    let mut s = [0u8; 256];
    s.copy_from_slice(&z[a..a + 256]);
    s
}

// Zn is copied first, so that it may be a destination. Each width has its own instance, in which LLVM has its literals; out of the
// run's loop, where it would slow down the other words.
#[inline(never)]
fn four_destinations<const W: usize>(z: &mut [u8], zt: &[u8; 64], o: Operands, segment: usize)
    requires { SegmentReady (length z.old) W segment }
    ensures { z.new ≡ luti_file index_bits (8 * W) o.vl destinations segment o.zn o.first o.stride zt.now z.old destinations }
{
    let n = o.vl / 8;
    let each = o.vl / (16 * W);
    let s = slot_of(z, o.zn);
    let high = raised::<W>(zt);
    for r in 0..4 {
        let from = (4 * segment + r) * each;
        let d = 256 * (o.first + o.stride * r);
        look::<W>(&s[from..from + each], zt, &high, &mut z[d..d + n]);
    }
}

// Each size with its segment, of which 16 bits have one.
pub(crate) fn luti4_file(z: &mut [u8], zt: &[u8; 64], o: Operands)
    requires { length z.old ≡ vector_file }
    ensures { z.new ≡ luti_file index_bits o.size o.vl destinations (segment_of index_bits o.size destinations o.i1) o.zn o.first o.stride zt.now z.old destinations }
{
    if o.size == 16 {
        four_destinations::<2>(z, zt, o, 0);
        return;
    }
    four_destinations::<4>(z, zt, o, o.i1);
}
