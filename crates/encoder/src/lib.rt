// Writes words: the ranges of an instruction's fields, its features, and the word.
#![tactic(auto)]

pub mod ranges;
mod words;

ghost use Rattle.std.specs.Prelude.{◌≡◌};
ghost use Rattle.encoding.specs.Encode.{encode_of, encoded_as};

use encoding::{Instruction, table};
use setting::{Refusal, Setting};

// The word that an instruction is written as under a setting.
pub fn encode(setting: Setting, instruction: Instruction) -> Result<u32, Refusal>
    ensures { encoded_as result ≡ encode_of setting instruction }
{
    if !setting::allowed(setting) {
        return Err(Refusal::NotAllowed);
    }
    if !ranges::in_range(instruction) {
        return Err(Refusal::OutOfRange);
    }
    if !table::available(encoding::place(instruction), setting.features) {
        return Err(Refusal::Undefined);
    }
    Ok(words::word_of(instruction))
}
