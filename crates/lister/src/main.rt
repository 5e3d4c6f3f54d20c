// Lists the words on standard input. It only moves buffers: what it writes is listing's.
#![tactic(auto)]

ghost use Rattle.std.specs.Prelude.{◌*◌, ◌/◌, ◌≤◌, length};

use std::io;
use std::io::{Read, Write};

// Not a multiple of 4: an input longer than the buffer has a record across its edge.
const INPUT: usize = 65538;
// Room for a line of 19 bytes for each whole record of the input buffer.
const TEXT: usize = 19 * (INPUT / 4);

// Writes the lines of all of input, for which text has room.
fn list<W: Write>(writer: &mut W, input: &[u8], text: &mut [u8]) -> io::Result<()>
    requires { length input.now ≤ 4 * (length text.old / 19) }
{
    let listed = listing::lines(input, text);
    writer.write_all(&text[..listed.written])
}

// Each turn reads once behind the bytes kept, lists the whole records, and keeps the bytes behind them; at the end of the input
// those are listed. A proved loop has to end: no input takes so many turns. (The buffer and how much of it is kept are no struct with
// that bound: the borrow checker has no rule for lending a part of the one beside the other.)
fn list_all<R: Read, W: Write>(reader: &mut R, writer: &mut W) -> io::Result<()> {
    let mut input = [0; INPUT];
    let mut text = [0; TEXT];
    let mut kept = 0;
    for _ in 0..u64::MAX {
        let got = reader.read(&mut input[kept..])?;
        if got == 0 {
            break;
        }
        let n = kept + got;
        list(writer, &input[..n / 4 * 4], &mut text)?;
        kept = listing::carry(&mut input[..n]);
    }
    list(writer, &input[..kept], &mut text)
}

fn main(rt: HostRuntime) {
    // A read or a write that fails ends the program in silence.
    let _ = list_all(&mut rt.stdin(), &mut rt.stdout());
}
