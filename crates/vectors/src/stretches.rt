// Whether two words conflict, and whether a rearrangement of a stretch is permitted: kinds 8 and 10.
//
// Six values follow kind, VL and features. Kind 8: the two words, and zeros. An answer is eight numbers: document 01's
// number, 1 for yes or 0, and zeros. Kind 10: how many words, how many entries, and zeros; then the words, and the
// order's entries. An answer is two numbers: document 01's, and 1 for yes or 0.
use crate::lines;
use crate::lines::Numbers;
use setting::Setting;
use std::io;
use stretch::Reply;

fn told(reply: Reply) -> (u32, u32) {
    match reply {
        Ok(yes) => (0, u32::from(yes)),
        Err(refusal) => (u32::from(refusal), 0),
    }
}

pub(crate) fn conflict(rt: &HostRuntime, setting: Setting) -> io::Result<()> {
    let [first, second, _, _, _, _] = lines::read::<6>(rt)?;
    let (answer, yes) = told(stretch::conflict(setting, first, second));
    println!(rt; "{}", Numbers(&[answer, yes, 0, 0, 0, 0, 0, 0]))
}

// An error also where a list is longer than its buffer: no question has so long a one.
pub(crate) fn permission(rt: &HostRuntime, setting: Setting) -> io::Result<()> {
    let [word_count, entry_count, _, _, _, _] = lines::read::<6>(rt)?;
    let mut words = [0u32; 520];
    let mut order = [0u32; 520];
    let words = lines::read_list(rt, &mut words, word_count)?;
    let order = lines::read_list(rt, &mut order, entry_count)?;
    let (answer, yes) = told(stretch::permitted(setting, words, order));
    println!(rt; "{}", Numbers(&[answer, yes]))
}
