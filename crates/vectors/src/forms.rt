// Words read and forms written: kinds 0 to 6, 11 and 12.
//
// Six values follow kind, VL and features. Kind 0 reads the word that is the first value; the others write a word of the
// form with these fields. An answer is eight numbers: document 01's number, then the form's number, counted from 1, and
// its fields, or the word and zeros.
use crate::lines;
use crate::lines::Numbers;
use encoding::Instruction;
use setting::Setting;
use std::io;

// The crate `numbers` counts the forms from 0.
fn fields(instruction: Instruction) -> [u32; 8] {
    let mut n = [0u32; 7];
    numbers::put(instruction, &mut n);
    let [form, a, b, c, d, e, f] = n;
    [0, form.wrapping_add(1), a, b, c, d, e, f]
}

fn answered(number: u32, word: u32) -> [u32; 8] {
    [number, word, 0, 0, 0, 0, 0, 0]
}

pub(crate) fn read(rt: &HostRuntime, setting: Setting) -> io::Result<()> {
    let [word, _, _, _, _, _] = lines::read::<6>(rt)?;
    let line = match decoder::decode(setting, word) {
        Ok(instruction) => fields(instruction),
        Err(refusal) => answered(u32::from(refusal), 0),
    };
    println!(rt; "{}", Numbers(&line))
}

pub(crate) fn write(rt: &HostRuntime, setting: Setting, form: u32) -> io::Result<()> {
    let [a, b, c, d, e, f] = lines::read::<6>(rt)?;
    let line = match exported::written(setting, &[form, a, b, c, d, e, f]) {
        Ok(word) => answered(0, word),
        Err(refusal) => answered(u32::from(refusal), 0),
    };
    println!(rt; "{}", Numbers(&line))
}
