// What an accepted LUTI4 has.
ghost use Rattle.std.specs.Prelude.{◌≡◌, true, ◌||◌, ◌+◌, ◌*◌, ◌<◌, ◌≤◌, eqb};
ghost use Rattle.setting.specs.Allowed.{length_allowed};

#[derive(Clone, Copy)]
pub(crate) struct Operands {
    pub(crate) vl: usize,
    pub(crate) size: usize,
    pub(crate) i1: usize,
    pub(crate) zn: usize,
    pub(crate) first: usize,
    pub(crate) stride: usize,
    ghost allowed: { length_allowed vl ≡ true },
    ghost most: { vl ≤ 2048 },
    ghost sized: { (eqb size 16 || eqb size 32) ≡ true },
    ghost half: { i1 < 2 },
    ghost from: { zn < 32 },
    ghost to: { first + 3 * stride < 32 },
}
