//! Keys in their order, each with the place of what is known of it, found by binary search.

ghost use Rattle.std.specs.Prelude.{◌≡◌, ◌<◌, ◌≤◌, ◌+◌, IsTrue, IfOk, IfErr, length, vec_len, vec_capacity};
ghost use Rattle.std.specs.FinMap.{find, put};
ghost use Rattle.sv_model.specs.Keys.{key_cmp};
ghost use Rattle.sv_core.specs.Places.{Rises, IsFound, IsGap, erase, marked};

use sv_model::Key;

/// Every one of them is below the key.
fn is_behind(places: &[(Key, usize)], key: Key) -> bool
    requires { Rises places.now }
    ensures { IsTrue result → IsGap key places.now (length places.now) }
{
    match places.last() {
        Some((last, _)) => last.cmp(&key).is_lt(),
        None => true,
    }
}

/// The key stands at this index.
fn stands_at(places: &[(Key, usize)], key: Key, at: usize) -> bool
    requires { Rises places.now }
    ensures { IsTrue result → IsFound key places.now at }
{
    match places.get(at) {
        Some((other, _)) => other.cmp(&key).is_eq(),
        None => false,
    }
}

/// Where the key stands if the serials from its own to the last one are all there, as those are that a node gave itself.
fn guess(places: &[(Key, usize)], key: Key) -> usize {
    match places.last() {
        Some((last, _)) => {
            let behind = last.serial.saturating_sub(key.serial) as usize;
            places.len().saturating_sub(1).saturating_sub(behind)
        }
        None => 0,
    }
}

/// Where the key stands, or where it would, by a binary search.
fn searched(places: &[(Key, usize)], key: Key) -> Result<usize, usize>
    requires { Rises places.now }
    ensures found { IfOk result (IsFound key places.now) }
    ensures absent { IfErr result (IsGap key places.now) }
{
    places.binary_search_by_key(&key, |&(other, _)| other)
}

/// Where the key stands, or where it would. A key that the node gave itself is found without a search.
fn search(places: &[(Key, usize)], key: Key) -> Result<usize, usize>
    requires { Rises places.now }
    ensures found { IfOk result (IsFound key places.now) }
    ensures absent { IfErr result (IsGap key places.now) }
{
    if is_behind(places, key) {
        return Err(places.len());
    }
    let near = guess(places, key);
    if stands_at(places, key, near) {
        return Ok(near);
    }
    searched(places, key)
}

/// The place of what is known of the key, if the key is among them.
pub fn place_of(places: &[(Key, usize)], key: Key) -> Option<usize>
    requires { Rises places.now }
    ensures { result ≡ find key_cmp key places.now }
{
    match search(places, key) {
        Ok(at) => Some(places[at].1),
        Err(_) => None,
    }
}

/// The key is among them, with its place. There is room for it.
pub fn add(places: &mut Vec<(Key, usize)>, key: Key, place: usize)
    requires rises { Rises places.old.items }
    requires room { vec_len places.old < vec_capacity places.old }
    ensures items { places.new.items ≡ put key_cmp key place places.old.items }
    ensures len { vec_len places.new ≤ vec_len places.old + 1 }
    ensures capacity { vec_capacity places.old ≤ vec_capacity places.new }
{
    match search(places, key) {
        Ok(at) => places[at] = (key, place),
        Err(at) => {
            // there is room, so this takes no memory
            let _ = places.insert(at, (key, place));
        }
    }
}

/// The key is not among them.
pub fn remove(places: &mut Vec<(Key, usize)>, key: Key)
    requires { Rises places.old.items }
    ensures items { places.new.items ≡ erase key places.old.items }
    ensures len { vec_len places.new ≤ vec_len places.old }
    ensures capacity { vec_capacity places.old ≤ vec_capacity places.new }
{
    match search(places, key) {
        Ok(at) => {
            places.remove(at);
        }
        Err(_) => {}
    }
}

/// The key is among them, with its place, or isn't. There is room for it.
pub fn mark(places: &mut Vec<(Key, usize)>, key: Key, place: usize, is_there: bool)
    requires rises { Rises places.old.items }
    requires room { vec_len places.old < vec_capacity places.old }
    ensures items { places.new.items ≡ marked key place is_there places.old.items }
    ensures len { vec_len places.new ≤ vec_len places.old + 1 }
    ensures capacity { vec_capacity places.old ≤ vec_capacity places.new }
{
    if is_there {
        add(places, key, place);
    } else {
        remove(places, key);
    }
}
