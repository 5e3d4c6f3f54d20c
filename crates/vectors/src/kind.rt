// The kinds of questions, by their numbers.
use std::io;
use std::io::ErrorKind;

// A word is written of a form, which has its number over C: the kinds 1 to 6 write the forms 0 to 5 (0, 1 and 5 are not
// used any more), 11 and 12 the forms 6 and 7.
#[derive(Clone, Copy, Debug, PartialEq, Eq)]
pub(crate) enum Kind {
    Read,
    Write { form: u32 },
    Step,
    Conflict,
    Run,
    Permission,
}

// A number that is no kind.
#[derive(Clone, Copy, Debug, PartialEq, Eq)]
pub(crate) struct UnknownKind(u32);

impl TryFrom<u32> for Kind {
    type Error = UnknownKind;

    fn try_from(number: u32) -> Result<Kind, UnknownKind> {
        match number {
            0 => Ok(Kind::Read),
            1..=6 => Ok(Kind::Write { form: number - 1 }),
            7 => Ok(Kind::Step),
            8 => Ok(Kind::Conflict),
            9 => Ok(Kind::Run),
            10 => Ok(Kind::Permission),
            11 | 12 => Ok(Kind::Write { form: number - 5 }),
            _ => Err(UnknownKind(number)),
        }
    }
}

impl From<UnknownKind> for io::Error {
    fn from(_: UnknownKind) -> io::Error {
        ErrorKind::InvalidData.into()
    }
}
