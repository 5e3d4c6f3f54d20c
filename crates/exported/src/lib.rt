// What crosses the C interface as numbers: its version, a reply, the seven numbers of a word, PSEL's index unit, and a register's bytes in a lent buffer.
#![tactic(auto)]

pub mod adder;
pub mod replies;

ghost use Rattle.std.specs.Prelude.{◌≡◌};
ghost use Rattle.encoding.specs.Encode.{encoded_as};
ghost use Rattle.listing.specs.Buffer.{Wrote};
ghost use Rattle.exported.specs.Numbers.{outcome_as, number_in};
ghost use Rattle.exported.specs.Fields.{read_into, write_of};
ghost use Rattle.exported.specs.Buffers.{fitting};
ghost use Rattle.exported.specs.Version.{interface_version};

use encoding::Instruction;
use setting::{Answer, Refusal, Setting};

// The number of the interface.
pub fn interface_version() -> u32
    ensures { result ≡ interface_version }
{
    5
}

// The number of a reading, and its fields in a list of seven. In place of a reading any answer is told, also one that is no refusal.
pub fn read(decoded: Result<Instruction, Answer>, fields: &mut [u32]) -> u32
    ensures { (result ≡ number_in (outcome_as decoded)) × (fields.new ≡ read_into (outcome_as decoded) fields.old) }
{
    match decoded {
        Ok(instruction) => {
            numbers::put(instruction, fields);
            0
        }
        Err(answer) => setting::number(answer),
    }
}

// The word that seven numbers are written as. A setting that is not allowed is refused before the numbers are looked at.
pub fn written(setting: Setting, fields: &[u32]) -> Result<u32, Refusal>
    ensures { encoded_as result ≡ write_of setting fields.now }
{
    if !setting::allowed(setting) {
        return Err(Refusal::NotAllowed);
    }
    encoder::encode(setting, numbers::instruction(fields)?)
}

// A part into a buffer that has room for it, and its length; nothing into another, and 0, as C is told (`gighull_vector`): so no Option.
pub fn copied(part: &[u8], out: &mut [u8]) -> usize
    ensures { Wrote (fitting part.now out.old) out.old out.new result }
{
    if out.len() < part.len() {
        return 0;
    }
    let n = part.len();
    out[..n].copy_from_slice(part);
    n
}
