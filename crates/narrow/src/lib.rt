// The sixteen narrowing words on a lent vector file.
#![tactic(auto)]

mod bounds;
mod elements;
mod one;
mod signed;
mod sizes;
mod unsigned;
mod words;

ghost use Rattle.std.specs.Prelude.{◌≡◌, length};
ghost use Rattle.narrowing.specs.Calls.{rest_ready, narrow_ready, narrow_file};

// All but that the size is one of three, which is tested where each has its loops.
fn rest_ready(z: usize, vl: u32, size: u32, shift: u32, zn: u32, zd: u32) -> bool
    ensures { result ≡ rest_ready z vl size shift zn zd }
{
    let lengths = (z == element::VECTOR_FILE) & setting::length_allowed(vl);
    let fields = (0 < shift) & (shift <= size);
    lengths & fields & ((zn < 32) & (zd < 32))
}

// The word with the bits op, U, R and T, of Zn into Zd. False, and nothing is written, for an argument outside its range. (A bool
// and no Result: the clause `value` holds it.)
#[tactic(auto, using(crate::proofs::Accepted::refused, crate::proofs::Accepted::by_size), unfolding(narrowing::specs::Calls::narrow_file))]
pub fn narrow(
    z: &mut [u8],
    vl: u32,
    op: bool,
    u: bool,
    r: bool,
    t: bool,
    size: u32,
    shift: u32,
    zn: u32,
    zd: u32,
) -> bool
    ensures value { result ≡ narrow_ready (length z.old) vl size shift zn zd }
    ensures z_after { z.new ≡ narrow_file vl op u r t size shift zn zd z.old }
{
    if !rest_ready(z.len(), vl, size, shift, zn, zd) {
        return false;
    }
    sizes::narrow_file(
        z,
        vl as usize,
        op,
        u,
        r,
        t,
        size,
        shift,
        zn as usize,
        zd as usize,
    )
}
