// Keys in rising order, each once.
ghost use Rattle.std.specs.Prelude.{◌≡◌, ◌≤◌, ◌<◌, ◌+◌, length, IsTrue, false};
ghost use Rattle.std.specs.List.{HoldsAt};
ghost use Rattle.arrayvec.specs.ArrayVec.{array_vec_len};
ghost use Rattle.index_keys.specs.KeyLists.{KeysRise, with_key};
ghost use Rattle.index_keys.specs.Inside.KeyPlaces.{IsKeyPlace};

use crate::index_key::IndexKey;
use arrayvec::ArrayVec;

// Where a key is, or where it would go.
fn place_of<const W: usize>(keys: &[IndexKey<W>], key: &IndexKey<W>) -> usize
    ensures within { result ≤ length keys.now }
    ensures place { KeysRise 0 keys.now → IsKeyPlace key.now keys.now result }
{
    let mut low = 0;
    let mut high = keys.len();
    while low < high {
        let middle = low + (high - low) / 2;
        if keys[middle].is_before(0, key, 0) {
            low = middle + 1;
        } else {
            high = middle;
        }
    }
    low
}

// Whether the key stands at its place.
fn is_at<const W: usize>(keys: &[IndexKey<W>], place: usize, key: &IndexKey<W>) -> bool
    ensures here { IsTrue result → (place < length keys.now) }
    ensures equal { IsKeyPlace key.now keys.now place → IsTrue result
        → HoldsAt (λ other. other ≡ key.now) keys.now place }
    ensures other { result ≡ false → place < length keys.now
        → IsKeyPlace key.now keys.now place → HoldsAt (λ other. key.now < other) keys.now place }
{
    if place < keys.len() {
        !key.is_before(0, &keys[place], 0)
    } else {
        false
    }
}

/// Puts a key into keys that rise, unless it is there: they are one more at most.
pub fn add_key<const W: usize, const N: usize>(
    keys: &mut ArrayVec<IndexKey<W>, N>,
    key: IndexKey<W>,
)
    requires room { array_vec_len keys.old < N }
    ensures added { KeysRise 0 keys.old.items
        → keys.new.items ≡ with_key key.entry keys.old.items }
    ensures most { array_vec_len keys.new ≤ array_vec_len keys.old + 1 }
{
    let place = place_of(keys.as_slice(), &key);
    // Behind the others, where most keys go, nothing has to move.
    if place == keys.len() {
        keys.push(key);
    } else if !is_at(keys.as_slice(), place, &key) {
        keys.insert(place, key);
    }
}
