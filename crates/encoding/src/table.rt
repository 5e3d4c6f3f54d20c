// The table of layouts as the code has it, a row at a time, in document 01's order: the decoder, the encoder and the lister share it.
ghost use Rattle.std.specs.Prelude.{◌≡◌};
ghost use Rattle.setting.specs.Allowed.{has_any};
ghost use Rattle.encoding.specs.Layout.{fixed_of};
ghost use Rattle.encoding.specs.Places.{layout_at, features_at, has_layout};
ghost use Rattle.encoding.specs.Private.{feature_bits};

// The number of rows. A place is a number and no enum: `has_layout`, `fixed_bits` and `available` promise an answer for every number.
pub const ROWS: usize = 6;

// A row's layout: the bits that it fixes, and what it fixes them to; and the features of which one is enough, as bits of the feature number.
#[derive(Clone, Copy)]
struct Columns {
    mask: u32,
    bits: u32,
    features: u32,
}

const TABLE: [Columns; ROWS] = [
    Columns {
        mask: 0xff3ffc10,
        bits: 0x25207010,
        features: 0b01010,
    },
    Columns {
        mask: 0xff3ffe10,
        bits: 0x25207410,
        features: 0b01010,
    },
    Columns {
        mask: 0xff20c210,
        bits: 0x25204000,
        features: 0b00110,
    },
    Columns {
        mask: 0xfffecc03,
        bits: 0xc08a8000,
        features: 0b01000,
    },
    Columns {
        mask: 0xfffecc0c,
        bits: 0xc09a8000,
        features: 0b10000,
    },
    Columns {
        mask: 0xffa0c000,
        bits: 0x45200000,
        features: 0b00101,
    },
];

// The names: of the rows that have one, in their order, of the narrowing words by op:U:R:T, and of no row.
pub const NAMES: usize = 22;

// A name as it follows a word's digits in a listing, with dots behind it up to the longest, and how long it is without them.
// Kept in this form for speed: copied at its own length the lister takes 2.5 of fastlist, for a bar of 2.
#[derive(Clone, Copy)]
pub struct NameText(pub [u8; 11], pub usize);

pub static NAME_TEXTS: [NameText; NAMES] = [
    NameText(*b" PEXT1\n....", 7),
    NameText(*b" PEXT2\n....", 7),
    NameText(*b" PSEL\n.....", 6),
    NameText(*b" LUTI4C\n...", 8),
    NameText(*b" LUTI4S\n...", 8),
    NameText(*b" SQSHRUNB\n.", 10),
    NameText(*b" SQSHRUNT\n.", 10),
    NameText(*b" SQRSHRUNB\n", 11),
    NameText(*b" SQRSHRUNT\n", 11),
    NameText(*b" SHRNB\n....", 7),
    NameText(*b" SHRNT\n....", 7),
    NameText(*b" RSHRNB\n...", 8),
    NameText(*b" RSHRNT\n...", 8),
    NameText(*b" SQSHRNB\n..", 9),
    NameText(*b" SQSHRNT\n..", 9),
    NameText(*b" SQRSHRNB\n.", 10),
    NameText(*b" SQRSHRNT\n.", 10),
    NameText(*b" UQSHRNB\n..", 9),
    NameText(*b" UQSHRNT\n..", 9),
    NameText(*b" UQRSHRNB\n.", 10),
    NameText(*b" UQRSHRNT\n.", 10),
    NameText(*b" UNDEFINED\n", 11),
];

// Whether the word has every fixed bit of the layout at a place of the table; no past its end.
pub fn has_layout(place: usize, word: u32) -> bool
    ensures { result ≡ has_layout place word }
{
    if place < ROWS {
        return word & TABLE[place].mask == TABLE[place].bits;
    }
    false
}

// What the layout at a place fixes its bits to; 0 past the table's end.
pub fn fixed_bits(place: usize) -> u32
    ensures { result ≡ fixed_of (layout_at place) }
{
    if place < ROWS {
        return TABLE[place].bits;
    }
    0
}

// The features of the row at a place; none past the table's end.
fn feature_bits(place: usize) -> u32
    ensures { result ≡ feature_bits (features_at place) }
{
    if place < ROWS {
        return TABLE[place].features;
    }
    0
}

// Whether the feature number has a feature of the row at a place of the table; no past its end.
pub fn available(place: usize, features: u32) -> bool
    ensures { result ≡ has_any features (features_at place) }
{
    features & feature_bits(place) != 0
}
