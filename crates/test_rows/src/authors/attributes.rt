//! The attributes of a session.
//!
//! `value` has a text that is an attribute's value, or no word for no value; `has-session` has `made` or `none`; `text` has whether a
//! session is made, and the text that the attribute `note` gets; `number` likewise the number that it gets, or `kept` for none.

use crate::authors::requests::{answered, shown};
use crate::fault::RowFault;
use crate::row::first_word;
use std::alloc::Global;
use sv_model::{Key, Secret};
use sv_session::SessionEdit;
use sv_web::{get_number, has_session, number_of, read_u64, set_number, set_text};

const NOTE: &str = "note";

pub fn value(alloc: Global, words: &str) -> Result<String, RowFault> {
    if words.is_empty() {
        return shown(alloc, number_of(None));
    }
    shown(alloc, number_of(Some(words.as_bytes())))
}

/// An edit with a session that was just made, where the word is `made`, or with none.
pub fn edit_of(alloc: Global, word: &str) -> Result<SessionEdit, RowFault> {
    let fresh = (Key { home: 0, serial: 1 }, Secret([1; 16]));
    let mut edit = SessionEdit::begin(alloc, None, 0, 1_800, 0, fresh);
    if word == "made" {
        edit.create()?;
    }
    Ok(edit)
}

pub fn session(alloc: Global, word: &str) -> Result<String, RowFault> {
    let edit = edit_of(alloc, word)?;
    answered(alloc, has_session(&edit))
}

/// The attribute's value between angle brackets, or `none`, and the number that it is.
fn note(alloc: Global, edit: &SessionEdit) -> Result<String, RowFault> {
    let number = shown(alloc, get_number(edit, NOTE)?)?;
    match str::from_utf8(edit.get(NOTE)?.unwrap_or(b"none")) {
        Ok(text) => Ok(format!(in alloc; "<{text}>, as a number {number}")?),
        Err(_) => Err(RowFault::Part),
    }
}

pub fn text(alloc: Global, words: &str) -> Result<String, RowFault> {
    let (word, text) = first_word(words);
    let mut edit = edit_of(alloc, word)?;
    set_text(&mut edit, NOTE, text)?;
    note(alloc, &edit)
}

pub fn number(alloc: Global, words: &str) -> Result<String, RowFault> {
    let (word, number) = first_word(words);
    let mut edit = edit_of(alloc, word)?;
    if let Some(number) = read_u64(number) {
        set_number(alloc, &mut edit, NOTE, number)?;
    }
    note(alloc, &edit)
}
