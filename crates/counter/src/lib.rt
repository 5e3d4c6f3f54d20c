// A predicate-as-counter, its mask, and PEXT's portion of it. Only expansion leads from one to the other.
#![tactic(auto)]

ghost use Rattle.std.specs.Prelude.{◌≡◌, not, ◌*◌, ◌%◌, ◌^◌, ◌<◌, ltb, length};
ghost use Rattle.logic.specs.Pick.{pick};
ghost use Rattle.element.specs.Size.{zeros};
ghost use Rattle.element.specs.Units.{size_at};
ghost use Rattle.element.specs.Contents.{elem, gather, packed};
ghost use Rattle.counter.specs.Counter.{count_of};
ghost use Rattle.counter.specs.Portion.{portion_of, extractable};
ghost use Rattle.counter.specs.Private.{mask_of, every_place, at_places, sampled_bit, Length, HasSize, Sampled, Filled};
ghost use Rattle.counter.specs.Points.{Claims};

// Sixteen bits that are no mask.
#[derive(Clone, Copy)]
pub struct Counter(u16);

// Sixty-four bits of the mask that a counter stands for: those of the number that stand at every 2^z-th place, and z. Only `expand`
// makes one. The two are put together where other places are asked for too, so that one product gives both.
#[derive(Clone, Copy)]
struct Mask(u64, u32);

// A register's low sixteen bits, read as a counter. A missing byte is 0.
pub fn counter_of(p: &[u8]) -> Counter
    ensures { result.0 ≡ elem 2 0 p.now }
{
    let low = p.first().copied().unwrap_or(0);
    let high = p.get(1).copied().unwrap_or(0);
    Counter(u16::from_le_bytes([low, high]))
}

// (VL stays a number here and below: PEXT calls with literals, and `extract` promises an answer for every number.)
// Where the elements below the count end, in bits of the expansion: the counter below VL, without the lowest 1, halved.
fn edge(bits: u32, vl: u32) -> u32
    requires { HasSize vl bits }
    ensures { result ≡ count_of vl bits * 2 ^ zeros bits }
{
    let m = bits & (vl - 1);
    (m & (m - 1)) >> 1
}

// Sixty-four bits, of which every 2^z-th is 1: a byte of them eight times.
fn places(z: u32) -> u64
    requires { z < 4 }
    ensures { result ≡ every_place z }
{
    (element::pattern_of(z) as u64) * 0x0101010101010101
}

// Sixty-four bits, those from d on: none, from 64 on.
fn from_place(d: u32) -> u64
    ensures { result ≡ gather (λ b. not (ltb b d)) 0 64 }
{
    u64::MAX.unbounded_shl(d)
}

// The expansion, sixty-four bits of it from `from` on: the only way from a counter to a mask.
fn expand(c: Counter, vl: u32, from: u32) -> Mask
    requires { Length vl × (from % 8 ≡ 0) }
    ensures { (at_places result.0 result.1 ≡ mask_of vl c.0 from) × (result.1 < 4) }
{
    let b = c.0 as u32;
    if b % 16 == 0 {
        return Mask(0, 0);
    }
    let z = element::log_of_field(b);
    let x = from_place(edge(b, vl).saturating_sub(from));
    if b / 32768 == 1 {
        return Mask(x, z);
    }
    let y = !x;
    Mask(y, z)
}

// The mask's bits at every 2^s-th place.
fn at_places(m: Mask, s: u32) -> u64
    requires { (m.1 < 4) × (s < 4) }
    ensures { result ≡ at_places (at_places m.0 m.1) s }
{
    m.0 & places(m.1.max(s))
}

// The mask's bits from `from` on, at every 2^s-th place, eight bytes at a time; two or four where there are no more.
fn sample(c: Counter, vl: u32, s: u32, from: u32, o: &mut [u8])
    requires { Sampled vl s from × Filled from (length o.old) }
    ensures { o.new ≡ packed (sampled_bit vl c.0 s from) (length o.old) }
{
    if o.len() < 8 {
        part::write(o, at_places(expand(c, vl, from), s));
        return;
    }
    for k in 0..o.len() / 8 {
        let a = 8 * k;
        let m = expand(c, vl, from + 8 * (a as u32));
        part::write(&mut o[a..a + 8], at_places(m, s));
    }
}

fn can_extract(vl: u32, log: u32, portion: u32, room: usize) -> bool
    ensures { result ≡ extractable vl (size_at log) portion room }
{
    setting::length_allowed(vl) & (log < 4) & (portion < 4) & (room == (vl / 64) as usize)
}

// PEXT: a portion of the counter's mask at the instruction's own size, given by its log. False, and o as it was, where there is none such.
// (A bool and no Result: the clause `answer` holds it.)
pub fn extract(c: Counter, vl: u32, log: u32, portion: u32, o: &mut [u8]) -> bool
    ensures answer { result ≡ extractable vl (size_at log) portion (length o.old) }
    ensures part { o.new ≡ pick (extractable vl (size_at log) portion (length o.old)) (portion_of vl (size_at log) portion c.0) o.old }
{
    if !can_extract(vl, log, portion, o.len()) {
        return false;
    }
    sample(c, vl, log, portion * (vl / 8), o);
    true
}

// The theorems about these definitions. It does nothing: its promise has the check demand their proofs.
pub fn claims()
    ensures { Claims }
{}
