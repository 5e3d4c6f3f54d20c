// Lines of numbers on standard input and output: each number is eight hex digits and the byte that follows them.
use std::fmt::{Display, Formatter};
use std::io::{ErrorKind, Read};
use std::{fmt, io};

// By hand, since the program takes any byte as a digit and may not change: `u32::from_str_radix` refuses most, and takes a sign.
fn digit_of(b: u8) -> u32 {
    let low = u32::from(b % 16);
    if b < 64 { low } else { (low + 9) % 16 }
}

// The next number of the input; an error where it ends before.
pub(crate) fn number(rt: &HostRuntime) -> io::Result<u32> {
    let mut text = [0u8; 9];
    rt.stdin().read_exact(&mut text)?;
    Ok(text[..8].iter().fold(0, |n, b| (n << 4) | digit_of(*b)))
}

// The next numbers of the input into a list.
pub(crate) fn fill(rt: &HostRuntime, list: &mut [u32]) -> io::Result<()> {
    for place in list {
        *place = number(rt)?;
    }
    Ok(())
}

// The next N numbers of the input.
pub(crate) fn read<const N: usize>(rt: &HostRuntime) -> io::Result<[u32; N]> {
    let mut numbers = [0u32; N];
    fill(rt, &mut numbers)?;
    Ok(numbers)
}

// The next n numbers of the input, in the first places of a buffer (there is no heap); an error also where it has fewer.
pub(crate) fn read_list<'a>(
    rt: &HostRuntime,
    buffer: &'a mut [u32],
    n: u32,
) -> io::Result<&'a [u32]> {
    let list = buffer.get_mut(..n as usize).ok_or(ErrorKind::InvalidData)?;
    fill(rt, list)?;
    Ok(list)
}

// Numbers with a space between them.
#[derive(Clone, Copy)]
pub(crate) struct Numbers<'a>(pub(crate) &'a [u32]);

impl Display for Numbers<'_> {
    fn fmt<W: fmt::Write>(&self, f: &mut Formatter<W>) -> fmt::Result {
        let mut before = "";
        for number in self.0 {
            write!(f, "{before}{number:08x}")?;
            before = " ";
        }
        Ok(())
    }
}

// A number of 64 bits as two of 32, the high one first.
#[derive(Clone, Copy)]
pub(crate) struct Halves(pub(crate) u64);

impl Display for Halves {
    fn fmt<W: fmt::Write>(&self, f: &mut Formatter<W>) -> fmt::Result {
        write!(f, "{:08x} {:08x}", self.0 >> 32, self.0 % 0x100000000)
    }
}
