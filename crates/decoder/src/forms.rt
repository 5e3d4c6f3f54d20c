// What each row of the table reads a word as.
ghost use Rattle.std.specs.Prelude.{◌≡◌};
ghost use Rattle.encoding.specs.Decode.{read_at, decoded_as};
ghost use Rattle.encoding.specs.Rows.{rows};

use encoding::Instruction;
use setting::Refusal;

// What the row at a place of the table, from 0, reads a word as, whether it matches or not; 3 past the table's end. (Why a place
// is a number: crates/encoding/src/table.rt. A table of closures would say no more, with the answer past its end beside it.)
pub(crate) fn read(place: usize, word: u32) -> Result<Instruction, Refusal>
    ensures { decoded_as result ≡ read_at rows place word }
{
    match place {
        0 => Ok(fields::pext(false, word).into()),
        1 => Ok(fields::pext(true, word).into()),
        2 => Ok(fields::psel(word).into()),
        3 => Ok(fields::luti4(false, word).into()),
        4 => Ok(fields::luti4(true, word).into()),
        5 => Ok(fields::narrow(word).into()),
        _ => Err(Refusal::Undefined),
    }
}
