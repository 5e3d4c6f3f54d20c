// What an accepted PEXT has beside its length.
ghost use Rattle.std.specs.Prelude.{◌+◌, ◌<◌, ◌≤◌};

#[derive(Clone, Copy)]
pub(crate) struct Operands {
    pub(crate) log: u32,
    pub(crate) first: u32,
    pub(crate) portions: u32,
    pub(crate) pn: u32,
    pub(crate) pd: u32,
    ghost sized: { log < 4 },
    ghost some: { 0 < portions },
    ghost few: { portions ≤ 2 },
    ghost last: { first + portions ≤ 4 },
    ghost from: { pn < 16 },
    ghost to: { pd < 16 },
}
