// Which row of the table a word has: two searches of the table, by layout, features and field condition.
ghost use Rattle.std.specs.Prelude.{◌≡◌};
ghost use Rattle.encoding.specs.Rows.{rows};
ghost use Rattle.encoding.specs.Places.{place_first, found_place};
ghost use Rattle.decoder.specs.Private.{condition_at, rest_at};

use encoding::table;
use encoding::table::ROWS;
use std::hint::select_unpredictable;

// The field condition of the row at a place of the table; not met past its end. (Why a place is a number:
// crates/encoding/src/table.rt. Six expressions by number: a table of closures would say no more, with the answer past its end beside it.)
fn condition(place: usize, word: u32) -> bool
    ensures { result ≡ condition_at rows place word }
{
    match place {
        0 => true,
        1 => true,
        2 => (word / 0x400000 % 2 != 0) | (word / 0x40000 % 8 != 0),
        3 => (word / 0x1000 % 4 == 1) | (word / 0x1000 % 4 == 2),
        4 => word / 0x1000 % 4 == 1,
        5 => (word / 0x400000 % 2 != 0) | (word / 0x80000 % 4 != 0),
        _ => false,
    }
}

// Beside its layout: the features and the field condition of the row at a place of the table.
fn rest(place: usize, features: u32, word: u32) -> bool
    ensures { result ≡ rest_at rows place features word }
{
    table::available(place, features) & condition(place, word)
}

// The place of the first row that matches. Every row is tested, from the last: for words in no order a branch is rarely foreseen. The
// place is a number up to the end: with an Option in the loop the listing took 1.14 of the archive before, for a bar of 1.05.
pub(crate) fn place_of(features: u32, word: u32) -> Option<usize>
    ensures { result ≡ found_place (place_first rows features word) }
{
    let mut place = ROWS;
    for k in (0..ROWS).rev() {
        let hit = table::has_layout(k, word) & rest(k, features, word);
        place = select_unpredictable(hit, k, place);
    }
    (place < ROWS).then_some(place)
}

// The places in the order in which they are tried by turns: the words that take least time come first.
const TURNS: [usize; ROWS] = [0, 5, 1, 2, 3, 4];

// The same, by turns, up to one that matches: no word has two layouts, so the order is free. In a run the same words come again,
// and each branch is foreseen.
pub(crate) fn place_by_turns(features: u32, word: u32) -> Option<usize>
    ensures { result ≡ found_place (place_first rows features word) }
{
    for k in TURNS {
        if table::has_layout(k, word) && rest(k, features, word) {
            return Some(k);
        }
    }
    None
}
