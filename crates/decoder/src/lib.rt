// Reads words: the place of the row that a word has, and the instruction that its fields are.
#![tactic(auto)]

mod forms;
mod layouts;

ghost use Rattle.std.specs.Prelude.{◌≡◌};
ghost use Rattle.encoding.specs.Decode.{decode_of, decoded_as};
ghost use Rattle.encoding.specs.Rows.{rows};
ghost use Rattle.encoding.specs.Places.{place_first, place_in, found_place};

use encoding::Instruction;
use setting::{Refusal, Setting};

// What a word is read as under a setting.
pub fn decode(setting: Setting, word: u32) -> Result<Instruction, Refusal>
    ensures { decoded_as result ≡ decode_of setting word }
{
    if !setting::allowed(setting) {
        return Err(Refusal::NotAllowed);
    }
    let Some(place) = layouts::place_of(setting.features, word) else {
        return Err(Refusal::Undefined);
    };
    forms::read(place, word)
}

// The place of the first row that matches a word, for whoever has tested the setting: by turns, so that where the same words come
// again, as in a run, each branch is foreseen.
pub fn place(features: u32, word: u32) -> Option<usize>
    ensures { result ≡ found_place (place_first rows features word) }
{
    layouts::place_by_turns(features, word)
}

// The place in the table, from 0, of the form that a word is read as under a setting; none where it is refused.
pub fn form(setting: Setting, word: u32) -> Option<usize>
    ensures { result ≡ found_place (place_in (decode_of setting word)) }
{
    if !setting::allowed(setting) {
        return None;
    }
    layouts::place_of(setting.features, word)
}
