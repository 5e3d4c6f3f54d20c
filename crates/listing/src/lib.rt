// Lists words into a lent buffer: a line of the text that the crate `text` defines for each record of four bytes.
#![tactic(auto)]

ghost use Rattle.std.specs.Prelude.{[], ◌∷◌, ◌≡◌, ◌*◌, ◌/◌, ◌%◌, ◌≤◌, length};
ghost use Rattle.std.specs.List.{flat_map};
ghost use Rattle.text.specs.Text.{glyph_of, hex_digits};
ghost use Rattle.text.specs.Name.{name_of};
ghost use Rattle.text.specs.Lines.{name_line, lines_of};
ghost use Rattle.listing.specs.Buffer.{Wrote, listed_of, out_of, carried_of};
ghost use Rattle.listing.specs.Private.{Begins, Began, names, name_at, quad_line};

use encoding::table::{NAME_TEXTS, NameText, ROWS};
use setting::Setting;
use std::hint::select_unpredictable;

// The two hex digits of each byte.
static PAIRS: [u8; 512] = *b"000102030405060708090a0b0c0d0e0f101112131415161718191a1b1c1d1e1f\
    202122232425262728292a2b2c2d2e2f303132333435363738393a3b3c3d3e3f\
    404142434445464748494a4b4c4d4e4f505152535455565758595a5b5c5d5e5f\
    606162636465666768696a6b6c6d6e6f707172737475767778797a7b7c7d7e7f\
    808182838485868788898a8b8c8d8e8f909192939495969798999a9b9c9d9e9f\
    a0a1a2a3a4a5a6a7a8a9aaabacadaeafb0b1b2b3b4b5b6b7b8b9babbbcbdbebf\
    c0c1c2c3c4c5c6c7c8c9cacbcccdcecfd0d1d2d3d4d5d6d7d8d9dadbdcdddedf\
    e0e1e2e3e4e5e6e7e8e9eaebecedeeeff0f1f2f3f4f5f6f7f8f9fafbfcfdfeff";

// How many bytes of the input were listed, and how many bytes of text that gave.
#[derive(Clone, Copy)]
pub struct Listed {
    pub read: usize,
    pub written: usize,
}

// The place of the word's name in the table: its form's, a narrowing word's by op:U:R:T, or that of no name behind them all.
#[tactic(auto, using(crate::proofs::Names::name_is))]
fn name_index(word: u32) -> usize
    ensures { (name_at result ≡ name_of word) × (result ≤ length names) }
{
    let place = decoder::form(
        Setting {
            vl: 128,
            features: 31,
        },
        word,
    )
    .unwrap_or(ROWS);
    let bits = (word / 0x400 % 16) as usize;
    // 5 and ROWS are numbers since `decoder::form` promises a place of the table (`place_in`), which the names begin with.
    place + select_unpredictable(place == 5, bits, 0) + select_unpredictable(place == ROWS, 15, 0)
}

// The two hex digits of a byte.
#[tactic(auto, using(crate::proofs::Tables::pairs_at))]
fn digits(byte: u8) -> [u8; 2]
    ensures { result ≡ glyph_of (byte / 16) ∷ glyph_of (byte % 16) ∷ [] }
{
    let at = 2 * byte as usize;
    [PAIRS[at], PAIRS[at + 1]]
}

fn hex(word: u32, out: &mut [u8])
    requires { length out.old ≡ 8 }
    ensures { out.new ≡ hex_digits 8 word }
{
    for (i, byte) in word.to_be_bytes().iter().enumerate() {
        let [high, low] = digits(*byte);
        out[2 * i] = high;
        out[2 * i + 1] = low;
    }
}

// A text at the start of out. (Buffers stay slices whose length a clause says, here and below: an array would be taken of a part at each call.)
fn put(text: &[u8], out: &mut [u8]) -> usize
    requires { length text.now ≤ length out.old }
    ensures { Wrote text.now out.old out.new result }
{
    let n = text.len();
    out[..n].copy_from_slice(text);
    n
}

// The line of the bytes left over.
#[tactic(auto, using(text::proofs::Append::short_lines))]
fn short(left: &[u8], out: &mut [u8]) -> usize
    requires { (1 ≤ length left.now) × (length left.now ≤ 3) × (length out.old ≡ 19) }
    ensures { Wrote (lines_of left.now) out.old out.new result }
{
    let mut text = *b"SHORT 0\n";
    text[6] += left.len() as u8;
    put(&text, out)
}

// The name, all 11 bytes that there may be of it: a jump on its length would be mispredicted.
fn tail(i: usize, out: &mut [u8]) -> usize
    requires { (i ≤ length names) × (length out.old ≡ 11) }
    ensures { (Begins (name_line (name_at i)) out.new result) × (5 ≤ result) }
{
    let NameText(bytes, length) = &NAME_TEXTS[i];
    out.copy_from_slice(bytes);
    *length
}

// The line of one record, and behind it up to six bytes of no meaning.
fn wide_line(quad: [u8; 4], out: &mut [u8]) -> usize
    requires { length out.old ≡ 19 }
    ensures { (Begins (quad_line quad) out.new result) × (13 ≤ result) }
{
    let word = u32::from_le_bytes(quad);
    hex(word, &mut out[..8]);
    8 + tail(name_index(word), &mut out[8..19])
}

// The same, and nothing behind it: the rest of out stays. (An array of the longest line and a slice of it, here as elsewhere: no heap.)
fn line(quad: [u8; 4], out: &mut [u8]) -> usize
    requires { length out.old ≡ 19 }
    ensures { Wrote (quad_line quad) out.old out.new result }
{
    let mut text = [0u8; 19];
    let n = wide_line(quad, &mut text);
    put(&text[..n], out)
}

// The records' lines, and behind them up to six bytes of no meaning: each line covers those of the one before.
fn wide_lines(quads: &[[u8; 4]], out: &mut [u8]) -> usize
    requires { 19 * length quads.now ≤ length out.old }
    ensures { (Began (flat_map quad_line quads.now) out.old out.new result) × (result ≤ 19 * length quads.now) }
{
    let mut at = 0;
    for quad in quads {
        at += wide_line(*quad, &mut out[at..at + 19]);
    }
    at
}

// The records' lines; the last is written exactly, so that the rest of out stays.
fn records(quads: &[[u8; 4]], out: &mut [u8]) -> usize
    requires { 19 * length quads.now ≤ length out.old }
    ensures { (Wrote (flat_map quad_line quads.now) out.old out.new result) × (result ≤ 19 * length quads.now) }
{
    let Some((last, others)) = quads.split_last() else {
        return 0;
    };
    let at = wide_lines(others, out);
    at + line(*last, &mut out[at..at + 19])
}

// Lists as many records as out has 19s, which is the longest line; where that is all of them, the
// bytes left over too.
pub fn lines(input: &[u8], out: &mut [u8]) -> Listed
    ensures { (result ≡ listed_of input.now out.old) × (out.new ≡ out_of input.now out.old) × (result.written ≤ length out.new) }
{
    let read = (4 * (out.len() / 19)).min(input.len());
    let (quads, left) = input[..read].as_chunks::<4>();
    let at = records(quads, out);
    if left.is_empty() {
        return Listed { read, written: at };
    }
    let more = short(left, &mut out[at..at + 19]);
    Listed {
        read,
        written: at + more,
    }
}

// Moves the bytes behind the last whole record to the front, and says how many they are.
pub fn carry(buf: &mut [u8]) -> usize
    ensures { (result ≡ length buf.old % 4) × (buf.new ≡ carried_of buf.old) }
{
    let left = buf.len() % 4;
    let from = buf.len() - left;
    buf.copy_within(from.., 0);
    left
}
