// The generator and the hash of reference/src/expand.rs: a file is filled from a seed, and compared by its hash.

fn output(state: u64) -> u64 {
    let a = (state ^ (state >> 30)).wrapping_mul(0xbf58476d1ce4e5b9);
    let b = (a ^ (a >> 27)).wrapping_mul(0x94d049bb133111eb);
    b ^ (b >> 31)
}

// Fills a file, eight bytes to an output and low byte first, and answers the state behind it.
pub(crate) fn fill(file: &mut [u8], from: u64) -> u64 {
    let mut state = from;
    for chunk in file.chunks_mut(8) {
        state = state.wrapping_add(0x9e3779b97f4a7c15);
        let bytes = output(state).to_le_bytes();
        // lent: an array's own iterator would take each byte out of an Option
        chunk
            .iter_mut()
            .zip(&bytes)
            .for_each(|(place, byte)| *place = *byte);
    }
    state
}

// Stores bytes at an offset, if they all lie in the file.
pub(crate) fn store(file: &mut [u8], at: u32, bytes: &[u8]) {
    let at = at as usize;
    if let Some(places) = file.get_mut(at..at + bytes.len()) {
        places.copy_from_slice(bytes);
    }
}

pub(crate) fn hash(file: &[u8]) -> u64 {
    file.iter().fold(0xcbf29ce484222325, |h, b| {
        (h ^ u64::from(*b)).wrapping_mul(0x100000001b3)
    })
}
