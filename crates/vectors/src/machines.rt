// A machine that a seed makes, and what is told of it: what steps and runs share.
//
// It is made from sixteen numbers: flags (V, S, T from bit 0), W12 to W15, PC (high, low), seed (high, low), the lengths
// of Z, P and ZT0, an offset and 16 bits for P, an offset and 32 bits for Z. What is left is told in thirteen: W12 to
// W15, PC, the flags, and the hashes of Z, P and ZT0, high and low.
use crate::generator::{fill, hash, store};
use crate::lines::Halves;
use machine::Scalars;
use std::fmt;
use std::fmt::{Display, Formatter};

// What the files are made from.
#[derive(Clone, Copy)]
struct Contents {
    seed: u64,
    z_length: u32,
    p_length: u32,
    zt_length: u32,
    p_at: u32,
    p_value: u32,
    z_at: u32,
    z_value: u32,
}

// What a machine is made from.
#[derive(Clone, Copy)]
pub(crate) struct Start {
    pub(crate) scalars: Scalars,
    contents: Contents,
}

fn joined(high: u32, low: u32) -> u64 {
    (u64::from(high) << 32) | u64::from(low)
}

impl From<[u32; 16]> for Start {
    fn from(numbers: [u32; 16]) -> Start {
        let [
            flags,
            w12,
            w13,
            w14,
            w15,
            pc_high,
            pc_low,
            seed_high,
            seed_low,
            z_length,
            p_length,
            zt_length,
            p_at,
            p_value,
            z_at,
            z_value,
        ] = numbers;
        Start {
            scalars: Scalars {
                w12,
                w13,
                w14,
                w15,
                pc: joined(pc_high, pc_low),
                v: flags & 1 != 0,
                s: flags & 2 != 0,
                t: flags & 4 != 0,
            },
            contents: Contents {
                seed: joined(seed_high, seed_low),
                z_length,
                p_length,
                zt_length,
                p_at,
                p_value,
                z_at,
                z_value,
            },
        }
    }
}

// A file is as long as the question says, and no longer than its buffer.
fn cut(buffer: &mut [u8], asked: u32) -> &mut [u8] {
    let n = buffer.len().min(asked as usize);
    &mut buffer[..n]
}

// One stream fills the files in this order; the chosen values go over it.
fn make(z: &mut [u8], p: &mut [u8], zt: &mut [u8], contents: Contents) {
    let after_z = fill(z, contents.seed);
    let after_p = fill(p, after_z);
    fill(zt, after_p);
    store(p, contents.p_at, &contents.p_value.to_le_bytes()[..2]);
    store(z, contents.z_at, &contents.z_value.to_le_bytes());
}

// The files are told by hashes, so that an answer is a short line.
#[derive(Clone, Copy)]
pub(crate) struct Hashes {
    z: u64,
    p: u64,
    zt: u64,
}

// Makes the files, in buffers (no heap) that are longer than any file that is asked about, and does the task on them. They stay
// three parameters: `step_through` and `run` take them so, and a call with two fields of a struct of them has no proof.
pub(crate) fn after<T, F: FnOnce(&mut [u8], &mut [u8], &mut [u8]) -> T>(
    start: Start,
    task: F,
) -> (T, Hashes)
    requires { F.IsAlwaysCallable task }
{
    let contents = start.contents;
    let mut z = [0u8; 16640];
    let mut p = [0u8; 8320];
    let mut zt = [0u8; 8320];
    let z = cut(&mut z, contents.z_length);
    let p = cut(&mut p, contents.p_length);
    let zt = cut(&mut zt, contents.zt_length);
    make(z, p, zt, contents);
    let done = task(z, p, zt);
    let hashes = Hashes {
        z: hash(z),
        p: hash(p),
        zt: hash(zt),
    };
    (done, hashes)
}

impl Display for Hashes {
    fn fmt<W: fmt::Write>(&self, f: &mut Formatter<W>) -> fmt::Result {
        let Hashes { z, p, zt } = *self;
        write!(f, "{} {} {}", Halves(z), Halves(p), Halves(zt))
    }
}

// The scalars as they are told.
#[derive(Clone, Copy)]
pub(crate) struct Told(pub(crate) Scalars);

fn flags_of(s: Scalars) -> u32 {
    u32::from(s.v) | (u32::from(s.s) << 1) | (u32::from(s.t) << 2)
}

impl Display for Told {
    fn fmt<W: fmt::Write>(&self, f: &mut Formatter<W>) -> fmt::Result {
        let Told(s) = *self;
        write!(
            f,
            "{:08x} {:08x} {:08x} {:08x} {} {:08x}",
            s.w12,
            s.w13,
            s.w14,
            s.w15,
            Halves(s.pc),
            flags_of(s)
        )
    }
}
