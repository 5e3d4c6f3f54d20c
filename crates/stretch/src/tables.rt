// The words of a stretch as entries, with what each touches and its place in an order, and the tests over all of them.
ghost use Rattle.std.specs.Prelude.{◌≡◌, true, ◌≤◌, length, MatchResult};
ghost use Rattle.std.specs.List.{list_all};
ghost use Rattle.setting.specs.Allowed.{allowed_of};
ghost use Rattle.logic.specs.Every.{all};
ghost use Rattle.stretch.specs.Private.{Told, Unplaced, Placed, UnreadIn, keeps_entry, stands_at};

use crate::touch::Touch;
use setting::{Refusal, Setting};

// A word of the stretch: what it touches, and its place in the order.
#[derive(Clone, Copy, Default)]
pub(crate) struct Entry {
    touch: Touch,
    place: usize,
}

// Gives each entry what its word touches. None is placed: each has the number of words for its place, as one that an order does not list
// (no Option: the definition `place`, crates/order, has the list's length). The entries are lent: a table that is answered is copied.
pub(crate) fn give_touches(
    setting: Setting,
    entries: &mut [Entry],
    words: &[u32],
) -> Result<(), Refusal>
    requires allowed { allowed_of setting ≡ true }
    requires each { length entries.old ≡ length words.now }
    ensures { MatchResult result (λ done. Told setting words.now (length words.now) entries.new) (UnreadIn setting words.now) }
{
    for (i, word) in words.iter().enumerate() {
        entries[i] = Entry {
            touch: Touch::read(setting, *word)?,
            place: words.len(),
        };
    }
    Ok(())
}

// Gives each entry its place in the order. From the last one, so that the first of two stays.
pub(crate) fn give_places(entries: &mut [Entry], order: &[u32])
    requires { Unplaced (length order.now) entries.old }
    ensures { Placed order.now entries.old entries.new }
{
    for k in (0..order.len()).rev() {
        let i = order[k] as usize;
        if i < entries.len() {
            entries[i].place = k;
        }
    }
}

// Whether a word comes after each earlier one that it clashes with.
fn keeps(earlier: &[Entry], later: Entry) -> bool
    ensures { result ≡ list_all (λ e. keeps_entry e later) earlier.now }
{
    earlier.iter().all(|entry| !entry.touch.clashes(later.touch) | (entry.place < later.place))
}

// Whether the order lists each of the positions, and keeps each pair that clashes.
pub(crate) fn stands(entries: &[Entry]) -> bool
    ensures { result ≡ all (stands_at entries.now) (length entries.now) }
{
    for (j, entry) in entries.iter().enumerate() {
        if entry.place >= entries.len() || !keeps(&entries[..j], *entry) {
            return false;
        }
    }
    true
}
