// What an accepted PSEL has beside its length.
ghost use Rattle.std.specs.Prelude.{◌<◌};

#[derive(Clone, Copy)]
pub(crate) struct Operands {
    pub(crate) log: u32,
    pub(crate) w: u32,
    pub(crate) offset: u32,
    pub(crate) pn: u32,
    pub(crate) pm: u32,
    pub(crate) pd: u32,
    ghost sized: { log < 4 },
    ghost copied: { pn < 16 },
    ghost chosen: { pm < 16 },
    ghost to: { pd < 16 },
}
