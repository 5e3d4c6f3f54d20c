// A stretch of words: whether two words conflict, and whether a rearrangement is permitted. The run stands in `interpreter`.
#![tactic(auto)]

mod tables;
mod touch;

ghost use Rattle.std.specs.Prelude.{◌≡◌};
ghost use Rattle.stretch.specs.Conflict.{conflict_of, reply_as};
ghost use Rattle.stretch.specs.Permission.{permitted_of};
ghost use Rattle.stretch.specs.Claims.{Claims};

use setting::{Refusal, Setting};
use tables::Entry;
use touch::Touch;

// What a question about words answers: yes or no, or a refusal. `reply_as` has the number and value of each.
pub type Reply = Result<bool, Refusal>;

// Whether two words conflict under a setting.
pub fn conflict(setting: Setting, first: u32, second: u32) -> Reply
    ensures { reply_as result ≡ conflict_of setting first second }
{
    let v = Touch::read(setting, first)?;
    let w = Touch::read(setting, second)?;
    Ok(v.clashes(w))
}

// Whether an order of a stretch's positions is a permitted rearrangement of it. One of another length is none.
pub fn permitted(setting: Setting, words: &[u32], order: &[u32]) -> Reply
    ensures { reply_as result ≡ permitted_of setting words.now order.now }
{
    if !setting::allowed(setting) {
        return Err(Refusal::NotAllowed);
    }
    let n = words.len();
    if n > 256 {
        return Err(Refusal::TooManyWords);
    }
    // an array of the most words that there may be (no heap), and a slice of it
    let mut table = [Entry::default(); 256];
    let entries = &mut table[..n];
    tables::give_touches(setting, entries, words)?;
    if order.len() != n {
        return Ok(false);
    }
    tables::give_places(entries, order);
    Ok(tables::stands(entries))
}

// The theorems about these definitions. It does nothing: its promise has the check demand their proofs.
pub fn claims()
    ensures { Claims }
{}
