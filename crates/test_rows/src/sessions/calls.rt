//! The calls of an edit: `create`, `invalidate`, `change-id`, `interval SECONDS`, `set NAME=VALUE`, `set NAME` for no value,
//! `long NAME=LENGTH` for a value of so many bytes, `many COUNT` for attributes from `k0` on, `remove NAME`; and what is read: `get NAME`,
//! `names`, `count`, `key`, `new`. `nothing` is no call.

use crate::escape::shown_briefly;
use crate::fault::RowFault;
use crate::listed::push_listed;
use crate::row;
use std::alloc::{AllocError, Global};
use sv_model::{Key, Text};
use sv_session::{SessionEdit, SessionFault};

static BYTES: [u8; 65_537] = [b'v'; 65_537];

/// What a call that gives nothing answers.
type Answer = Result<(), SessionFault>;

fn set(edit: &mut SessionEdit, words: &str) -> Answer {
    match words.split_once('=') {
        Some((name, value)) => edit.set(name, Some(value.as_bytes())),
        None => edit.set(words, None),
    }
}

fn set_long(edit: &mut SessionEdit, words: &str) -> Result<Answer, RowFault> {
    let (name, length) = row::pair(words);
    let length = row::size(length)?;
    Ok(edit.set(name, Some(&BYTES[..length.min(65_537)])))
}

/// Sets so many attributes, up to the first one that is refused.
fn set_many(alloc: Global, edit: &mut SessionEdit, count: &str) -> Result<Answer, RowFault> {
    for number in 0..row::size(count)? {
        let name = format!(in alloc; "k{number}")?;
        if let Err(fault) = edit.set(name.as_str(), Some(b"v")) {
            return Ok(Err(fault));
        }
    }
    Ok(Ok(()))
}

fn set_interval(edit: &mut SessionEdit, seconds: &str) -> Result<Answer, RowFault> {
    Ok(edit.set_interval(row::interval(seconds)?))
}

/// Makes a call that changes something and gives nothing; none where this is no such call.
fn change(
    alloc: Global,
    edit: &mut SessionEdit,
    call: &str,
    words: &str,
) -> Result<Option<Answer>, RowFault> {
    let answer = match call {
        "set" => set(edit, words),
        "long" => set_long(edit, words)?,
        "many" => set_many(alloc, edit, words)?,
        "remove" => edit.remove(words),
        "invalidate" => edit.invalidate(),
        "change-id" => edit.change_id(),
        "interval" => set_interval(edit, words)?,
        _ => return Ok(None),
    };
    Ok(Some(answer))
}

fn fault_text(alloc: Global, fault: SessionFault) -> Result<String, AllocError> {
    format!(in alloc; "{fault:?}")
}

fn done_text(alloc: Global, answer: Answer) -> Result<String, AllocError> {
    match answer {
        Ok(()) => String::from_str(alloc, "done"),
        Err(fault) => fault_text(alloc, fault),
    }
}

fn bool_text(alloc: Global, answer: Result<bool, SessionFault>) -> Result<String, AllocError> {
    match answer {
        Ok(is_so) => format!(in alloc; "{is_so}"),
        Err(fault) => fault_text(alloc, fault),
    }
}

fn key_text(alloc: Global, answer: Result<Key, SessionFault>) -> Result<String, AllocError> {
    match answer {
        Ok(key) => format!(in alloc; "{}.{}", key.home, key.serial),
        Err(fault) => fault_text(alloc, fault),
    }
}

fn bytes_text(alloc: Global, bytes: &[u8]) -> Result<String, AllocError> {
    let text = shown_briefly(alloc, bytes)?;
    format!(in alloc; "<{text}>")
}

/// The value of a name between angle brackets.
fn value_text(alloc: Global, edit: &SessionEdit, name: &str) -> Result<String, AllocError> {
    match edit.get(name) {
        Ok(Some(value)) => bytes_text(alloc, value),
        Ok(None) => String::from_str(alloc, "none"),
        Err(fault) => fault_text(alloc, fault),
    }
}

fn listed(alloc: Global, names: &[Text]) -> Result<String, AllocError> {
    let mut list = String::new(alloc);
    for name in names {
        push_listed(&mut list, name.as_str())?;
    }
    format!(in alloc; "[{list}]")
}

/// The names between square brackets.
fn names_text(alloc: Global, edit: &SessionEdit) -> Result<String, AllocError> {
    match edit.names() {
        Ok(names) => listed(alloc, names.as_slice()),
        Err(fault) => fault_text(alloc, fault),
    }
}

fn count_text(alloc: Global, edit: &SessionEdit) -> Result<String, AllocError> {
    match edit.names() {
        Ok(names) => format!(in alloc; "{}", names.len()),
        Err(fault) => fault_text(alloc, fault),
    }
}

/// Makes a call that gives something.
fn given_text(
    alloc: Global,
    edit: &mut SessionEdit,
    call: &str,
    words: &str,
) -> Result<String, AllocError> {
    match call {
        "create" => bool_text(alloc, edit.create()),
        "get" => value_text(alloc, edit, words),
        "names" => names_text(alloc, edit),
        "count" => count_text(alloc, edit),
        "key" => key_text(alloc, edit.key()),
        "new" => bool_text(alloc, edit.is_new()),
        "nothing" => String::from_str(alloc, "nothing"),
        _ => String::from_str(alloc, "there is no such call"),
    }
}

/// Makes a call, and says what it answers.
pub fn answer(alloc: Global, edit: &mut SessionEdit, part: &str) -> Result<String, RowFault> {
    let (call, words) = row::first_word(part);
    match change(alloc, edit, call, words)? {
        Some(answer) => Ok(done_text(alloc, answer)?),
        None => Ok(given_text(alloc, edit, call, words)?),
    }
}
