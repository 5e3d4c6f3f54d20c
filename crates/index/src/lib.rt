// PSEL's index, as the hardware lab builds it: an adder of 32 bits, and a mask.
#![tactic(auto)]

ghost use Rattle.std.specs.Prelude.{◌≡◌, ◌+◌, ◌-◌, ◌/◌, ◌%◌, ◌^◌, ◌<◌, true};
ghost use Rattle.setting.specs.Allowed.{length_allowed};
ghost use Rattle.logic.specs.Pick.{pick};
ghost use Rattle.element.specs.Units.{size_at};
ghost use Rattle.index.specs.Index.{unit_of, has_unit, no_unit};
ghost use Rattle.index.specs.Claims.{Claims};

// What the index unit has on its wires: the adder's sum, the mask, and the index.
#[derive(Clone, Copy, Default)]
pub struct IndexUnit {
    pub sum: u32,
    pub mask: u32,
    pub index: u32,
}

// One less than the number of elements, which is a power of two: all the bits that number them.
fn mask(vl: u32, z: u32) -> u32
    requires { (z < 4) × (length_allowed vl ≡ true) }
    ensures { result ≡ vl / 8 / 2 ^ z - 1 }
{
    let n = (vl / 8) >> z;
    n - 1
}

// The index: the sum of 32 bits, which wraps, and of it the low bits, which the mask keeps.
fn index(vl: u32, z: u32, w: u32, offset: u32) -> u32
    requires { (z < 4) × (length_allowed vl ≡ true) }
    ensures { (result ≡ (w + offset) % (vl / 8 / 2 ^ z)) × (result < vl / 8 / 2 ^ z) }
{
    w.wrapping_add(offset) & mask(vl, z)
}

fn has_unit(vl: u32, log: u32) -> bool
    ensures { result ≡ has_unit vl (size_at log) }
{
    setting::length_allowed(vl) & (log < 4)
}

// The index unit for elements of 8 · 2^log bits. All 0 for a VL or a size that there is not.
// (No Option: the clause's `no_unit` and `gighull_psel_index` hold the zeros.)
pub fn unit(vl: u32, log: u32, w: u32, offset: u32) -> IndexUnit
    ensures { result ≡ pick (has_unit vl (size_at log)) (unit_of vl (size_at log) w offset) no_unit }
{
    if !has_unit(vl, log) {
        return IndexUnit::default();
    }
    IndexUnit {
        sum: w.wrapping_add(offset),
        mask: mask(vl, log),
        index: index(vl, log, w, offset),
    }
}

// The theorems about these definitions. It does nothing: its promise has the check demand their proofs.
pub fn claims()
    ensures { Claims }
{}
