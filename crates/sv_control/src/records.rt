//! What is shown of a journal: a text for each record.

ghost use Rattle.std.specs.Prelude.{◌≡◌, ◌++◌, decimal};
ghost use Rattle.std.specs.Fmt.{WritesOnOk};
ghost use Rattle.sv_control.specs.Records as spec;
ghost use Rattle.sv_control.specs.Records.{change_text, commit_text, counted_text, counters_text, forgets_text, gone_text, place_part, state_text, way_text};

use crate::naming::ShownKey;
use std::fmt;
use sv_model::{Change, Key, KeyState, Record};

/// Writes what a request has made of one key.
fn write_change<W: fmt::Write>(
    f: &mut fmt::Formatter<W>,
    verb: &str,
    change: &Change,
) -> fmt::Result
    ensures { WritesOnOk W.write_str_gives f.old result (change_text verb.now change.now) f.new }
{
    match change {
        Change::Absent => Ok(()),
        Change::Alive { key, .. } => write!(f, " {verb} {}", ShownKey(*key)),
        Change::Ended(key) => write!(f, " ended {}", ShownKey(*key)),
    }
}

/// Writes where a session is.
fn write_place<W: fmt::Write>(f: &mut fmt::Formatter<W>, state: &KeyState) -> fmt::Result
    ensures { WritesOnOk W.write_str_gives f.old result (place_part state.now) f.new }
{
    match state {
        KeyState::Active { .. } => f.write_str(" active"),
        KeyState::Sent { to, .. } => write!(f, " sent to {to}"),
        KeyState::Gone { .. } => f.write_str(" gone"),
        KeyState::Ended { .. } => f.write_str(" ended"),
    }
}

fn epoch_of(state: &KeyState) -> u64
    ensures { result ≡ spec.epoch_of state.now }
{
    match *state {
        KeyState::Active { epoch, .. }
        | KeyState::Sent { epoch, .. }
        | KeyState::Gone { epoch }
        | KeyState::Ended { epoch } => epoch,
    }
}

/// Writes what a snapshot has of a key.
fn write_state<W: fmt::Write>(f: &mut fmt::Formatter<W>, key: Key, state: &KeyState) -> fmt::Result
    ensures { WritesOnOk W.write_str_gives f.old result (state_text key state.now) f.new }
{
    write!(f, "{}", ShownKey(key))?;
    write_place(f, state)?;
    write!(f, ", epoch {}", epoch_of(state))
}

/// Writes two numbers, each after its text.
fn write_two<W: fmt::Write>(
    f: &mut fmt::Formatter<W>,
    one: (&str, u64),
    other: (&str, u64),
) -> fmt::Result
    ensures { WritesOnOk W.write_str_gives f.old result (one.entry.0.now ++ decimal one.entry.1 ++ other.entry.0.now ++ decimal other.entry.1) f.new }
{
    write!(f, "{}{}{}{}", one.0, one.1, other.0, other.1)
}

/// Writes what a request has made of the session that it named, and of the one that it made.
fn write_commit<W: fmt::Write>(
    f: &mut fmt::Formatter<W>,
    named: &Change,
    born: &Change,
) -> fmt::Result
    ensures { WritesOnOk W.write_str_gives f.old result (commit_text named.now born.now) f.new }
{
    f.write_str("served:")?;
    write_change(f, "kept", named)?;
    write_change(f, "made", born)
}

/// Writes a session's way to a node or from one.
fn write_way<W: fmt::Write>(
    f: &mut fmt::Formatter<W>,
    verb: &str,
    key: Key,
    way: (&str, u8),
    epoch: u64,
) -> fmt::Result
    ensures { WritesOnOk W.write_str_gives f.old result (way_text verb.now key way.entry.0.now way.entry.1 epoch) f.new }
{
    let (word, node) = way;
    write!(f, "{verb} {}{word}{node}, epoch {epoch}", ShownKey(key))
}

/// Writes that a session has gone.
fn write_gone<W: fmt::Write>(f: &mut fmt::Formatter<W>, key: Key, epoch: u64) -> fmt::Result
    ensures { WritesOnOk W.write_str_gives f.old result (gone_text key epoch) f.new }
{
    write!(f, "gone {}, epoch {epoch}", ShownKey(key))
}

/// Writes the counters of a snapshot.
fn write_counters<W: fmt::Write>(f: &mut fmt::Formatter<W>, boot: u64, next: u64) -> fmt::Result
    ensures { WritesOnOk W.write_str_gives f.old result (counters_text boot next) f.new }
{
    write_two(
        f,
        ("snapshot behind start ", boot),
        (", next serial ", next),
    )
}

/// Writes from which start on a node forgets.
fn write_forgets<W: fmt::Write>(f: &mut fmt::Formatter<W>, home: u8, boot: u64) -> fmt::Result
    ensures { WritesOnOk W.write_str_gives f.old result (forgets_text home boot) f.new }
{
    write!(f, "node {home} forgets from start {boot}")
}

/// Writes the counters of a node that forgets.
fn write_counted<W: fmt::Write>(
    f: &mut fmt::Formatter<W>,
    home: u8,
    boot: u64,
    next: u64,
) -> fmt::Result
    ensures { WritesOnOk W.write_str_gives f.old result (counted_text home boot next) f.new }
{
    write!(f, "node {home} forgets, ")?;
    write_counters(f, boot, next)
}

/// A record, which prints as what it says.
#[derive(Clone, Copy)]
pub struct ShownRecord<'a>(pub &'a Record);

impl fmt::Display for ShownRecord<'_> {
    ghost use Rattle.std.specs.Prelude.{Some};
    ghost use Rattle.sv_control.specs.Records.{record_text};

    ghost output = { λ r. Some (record_text r.0.now) };

    fn fmt<W: fmt::Write>(&self, f: &mut fmt::Formatter<W>) -> fmt::Result {
        match self.0 {
            Record::Boot(boot) => write!(f, "start {boot}"),
            Record::Commit { named, born } => write_commit(f, named, born),
            Record::Expired(key) => write!(f, "expired {}", ShownKey(*key)),
            Record::Sent { key, epoch, to, .. } => {
                write_way(f, "sent", *key, (" to ", *to), *epoch)
            }
            Record::Taken {
                key,
                epoch,
                from,
                ..
            } => { write_way(f, "taken", *key, (" from ", *from), *epoch) }
            Record::Gone { key, epoch } => write_gone(f, *key, *epoch),
            Record::State { key, state } => write_state(f, *key, state),
            Record::Counters { boot, next } => write_counters(f, *boot, *next),
            Record::Forgets { home, boot } => write_forgets(f, *home, *boot),
            Record::Counted { home, boot, next } => write_counted(f, *home, *boot, *next),
        }
    }
}
