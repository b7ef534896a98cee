//! The wants of the requests that wait, in their order.

ghost use Rattle.std.specs.List.{list_any};
ghost use Rattle.std.specs.Prelude.{◌≡◌, ◌<◌, ◌≤◌, ◌+◌, ◌++◌, ◌∷◌, [], ℕ, Bool, List, cond, false, IfOk, IfErr, length, vec_len, vec_capacity};
ghost use Rattle.sv_model.specs.declared.node.Parked.{Parked};
ghost use Rattle.sv_model.specs.NodeState.{known, is_settled};
ghost use Rattle.sv_model.specs.Time.{is_late};
ghost use Rattle.sv_model.specs.Keys.{same_key};
ghost use Rattle.sv_core.specs.Table.{keys_of, durable_by};
ghost use Rattle.sv_core.specs.Wants.{Rise, Stands, Lacks, IsAround, around, keys_in, wants_in, wants_where, wants_here, with_key, settles, settled_by};

use crate::kept::was_given;
use crate::table::{Table, is_same};
use crate::time::is_late;
use crate::waiting::is_settled;
use sv_model::{Change, Key, Parked, Record, Setting};

/// Where the request stands that has the want.
pub fn search(parked: &[Parked], want: u64) -> Result<usize, usize>
    requires { Rise (wants_in parked.now) }
    ensures found { IfOk result (Stands want parked.now) }
    ensures absent { IfErr result (λ at. Lacks want parked.now) }
{
    parked.binary_search_by_key(&want, |parked| parked.want)
}

/// The want is among them. There is room for it.
fn add(wants: &mut Vec<u64>, want: u64)
    requires { vec_len wants.old < vec_capacity wants.old }
    ensures items { (before : List ℕ) (was : Bool) (behind : List ℕ) → IsAround before want was behind wants.old.items
        → wants.new.items ≡ before ++ want ∷ behind }
    ensures len { vec_len wants.new ≤ vec_len wants.old + 1 }
    ensures capacity { vec_capacity wants.old ≤ vec_capacity wants.new }
{
    match wants.binary_search(&want) {
        Ok(_) => {}
        Err(at) => {
            // there is room, so this takes no memory
            let _ = wants.insert(at, want);
        }
    }
}

/// The want of one that joins is among them, where it can be served. There is room for it.
pub fn push_if(wants: &mut Vec<u64>, want: u64, is_settled: bool)
    requires { vec_len wants.old < vec_capacity wants.old }
    ensures items { wants.new.items ≡ wants.old.items ++ cond is_settled (want ∷ []) [] }
    ensures len { vec_len wants.new ≤ vec_len wants.old + 1 }
    ensures capacity { vec_capacity wants.old ≤ vec_capacity wants.new }
{
    if is_settled {
        wants.push_reserved(want);
    }
}

/// The want is not among them.
pub fn forget(wants: &mut Vec<u64>, want: u64)
    ensures items { (before : List ℕ) (was : Bool) (behind : List ℕ) → IsAround before want was behind wants.old.items → wants.new.items ≡ before ++ behind }
    ensures len { vec_len wants.new ≤ vec_len wants.old }
    ensures capacity { vec_capacity wants.old ≤ vec_capacity wants.new }
{
    match wants.binary_search(&want) {
        Ok(at) => {
            wants.remove(at);
        }
        Err(_) => {}
    }
}

/// Where the request waits for the key, its want is among them from now on, or isn't.
fn settle_one(wants: &mut Vec<u64>, parked: &Parked, key: Key, is_settled: bool)
    requires { vec_len wants.old < vec_capacity wants.old }
    ensures items { (before : List ℕ) (was : Bool) (behind : List ℕ) → IsAround before parked.now.want was behind wants.old.items
        → wants.new.items ≡ around before parked.now.want (cond (same_key parked.now.key key) is_settled was) behind }
    ensures len { vec_len wants.new ≤ vec_len wants.old + 1 }
    ensures capacity { vec_capacity wants.old ≤ vec_capacity wants.new }
{
    if !is_same(parked.key, key) {
        return;
    }
    if is_settled {
        add(wants, parked.want);
    } else {
        forget(wants, parked.want);
    }
}

/// The wants of those that wait for the key are among them from now on, or aren't.
fn settle(wants: &mut Vec<u64>, all: &[Parked], key: Key, is_settled: bool)
    requires rise { Rise (wants_in all.now) }
    requires room { vec_len wants.old + length all.now ≤ vec_capacity wants.old }
    ensures items { (test : Parked → Bool) → wants.old.items ≡ wants_where test all.now → wants.new.items ≡ wants_where (with_key key is_settled test) all.now }
    ensures capacity { vec_capacity wants.old ≤ vec_capacity wants.new }
{
    for parked in all {
        settle_one(wants, parked, key, is_settled);
    }
}

/// The key whose requests can be served after a record, or can't.
fn settles(entry: &Record) -> Option<(Key, bool)>
    ensures { result ≡ settles entry.now }
{
    match entry {
        Record::Boot(_)
        | Record::Counters { .. }
        | Record::Forgets { .. }
        | Record::Counted { .. }
        | Record::Expired(_) => None,
        Record::Commit { born, .. } => match born {
            Change::Absent => None,
            Change::Alive { key, .. } => Some((*key, true)),
            Change::Ended(key) => Some((*key, true)),
        },
        Record::Sent { key, .. } => Some((*key, false)),
        Record::Taken { key, .. } => Some((*key, true)),
        Record::Gone { key, .. } => Some((*key, false)),
        Record::State { key, state } => Some((*key, is_settled(Some(state)))),
    }
}

/// Somebody waits for the key.
fn is_waited(waited: &[Key], key: Key) -> bool
    ensures { result ≡ list_any (λ q. same_key q key) waited.now }
{
    waited.iter().any(|other| is_same(*other, key))
}

/// The wants of those that wait for the key are among them from now on, or aren't. Mostly nobody waits for it.
fn settle_if_waited(
    wants: &mut Vec<u64>,
    all: &[Parked],
    waited: &[Key],
    key: Key,
    is_settled: bool,
)
    requires keyed { waited.now ≡ keys_in all.now }
    requires rise { Rise (wants_in all.now) }
    requires room { vec_len wants.old + length all.now ≤ vec_capacity wants.old }
    ensures items { (test : Parked → Bool) → wants.old.items ≡ wants_where test all.now → wants.new.items ≡ wants_where (with_key key is_settled test) all.now }
    ensures capacity { vec_capacity wants.old ≤ vec_capacity wants.new }
{
    if is_waited(waited, key) {
        settle(wants, all, key, is_settled);
    }
}

/// The wants of those that can be served, after a record of a node that forgets none.
pub fn settle_behind(wants: &mut Vec<u64>, all: &[Parked], waited: &[Key], entry: &Record)
    requires keyed { waited.now ≡ keys_in all.now }
    requires rise { Rise (wants_in all.now) }
    requires room { vec_len wants.old + length all.now ≤ vec_capacity wants.old }
    ensures items { (test : Parked → Bool) → wants.old.items ≡ wants_where test all.now
        → wants.new.items ≡ wants_where (settled_by (settles entry.now) test) all.now }
    ensures capacity { vec_capacity wants.old ≤ vec_capacity wants.new }
{
    if let Some((key, is_settled)) = settles(entry) {
        settle_if_waited(wants, all, waited, key, is_settled);
    }
}

/// The request can be served by a node with these keys, which forgets those of this home and whose next serial is this.
fn can_serve(keys: &Table, home: Option<u8>, next: u64, key: Key) -> bool
    ensures { result ≡ is_settled (known (durable_by (keys_of keys.now) 0 next home) key) }
{
    match keys.get(key) {
        Some(state) => is_settled(Some(state)),
        None => was_given(home, next, key),
    }
}

/// The wants of those that can be served, anew. There is room for them.
pub fn settle_anew(wants: &mut Vec<u64>, all: &[Parked], keys: &Table, home: Option<u8>, next: u64)
    requires { length all.now ≤ vec_capacity wants.old }
    ensures items { wants.new.items ≡ wants_here (durable_by (keys_of keys.now) 0 next home) all.now }
    ensures capacity { vec_capacity wants.old ≤ vec_capacity wants.new }
{
    wants.clear();
    for parked in all {
        push_if(wants, parked.want, can_serve(keys, home, next, parked.key));
    }
}

/// The want of the request is not among them, where it has waited for as long as requests do.
fn forget_if_late(wants: &mut Vec<u64>, parked: &Parked, setting: Setting, steady: u64)
    ensures items { (before : List ℕ) (was : Bool) (behind : List ℕ) → IsAround before parked.now.want was behind wants.old.items
        → wants.new.items ≡ around before parked.now.want (cond (is_late setting steady parked.now) false was) behind }
{
    if is_late(setting, parked, steady) {
        forget(wants, parked.want);
    }
}

/// The wants of those that have waited for as long as requests do are not among them.
pub fn forget_late(wants: &mut Vec<u64>, all: &[Parked], setting: Setting, steady: u64)
    requires { Rise (wants_in all.now) }
    ensures { (test : Parked → Bool) → wants.old.items ≡ wants_where test all.now
        → wants.new.items ≡ wants_where (λ p. cond (is_late setting steady p) false (test p)) all.now }
{
    for parked in all {
        forget_if_late(wants, parked, setting, steady);
    }
}

/// The keys of those that wait, in their order. There is room for them.
pub fn list_keys(keys: &mut Vec<Key>, all: &[Parked])
    requires { length all.now ≤ vec_capacity keys.old }
    ensures { keys.new.items ≡ keys_in all.now }
{
    keys.clear();
    for parked in all {
        keys.push_reserved(parked.key);
    }
}
