//! Calls that make a mistake where memory is refused to them. Each is to be told as one, or the program finds none.

use crate::again::{Refusals, Unshown, again, done};
use crate::given;
use std::alloc::{AllocError, Global};
use sv_model::Sequence;
use sv_session::SessionFault;

type Shown = Result<String, Unshown>;

fn shown(alloc: Global, items: &Sequence<u8>) -> Shown {
    done(format!(in alloc; "{:?}", items.as_slice()))
}

/// Adds a text; where there is no memory for it, it takes away what was there, and says that all is well.
fn add_half(items: &mut Vec<u8>, text: &[u8]) -> Result<(), AllocError> {
    if items.extend_from_slice(text).is_err() {
        items.clear();
    }
    Ok(())
}

pub fn half_done(alloc: Global, refusals: &mut Refusals) -> Shown {
    let mut items = given::bytes(alloc, b"12345678")?.into_vec();
    again!(refusals, add_half(&mut items, b"a longer text"))?;
    shown(alloc, &Sequence::from_vec(items))
}

/// Adds a text; where there is no memory for it, the fault is another one.
fn add_otherwise(items: &mut Vec<u8>, text: &[u8]) -> Result<(), SessionFault> {
    match items.extend_from_slice(text) {
        Ok(()) => Ok(()),
        Err(_) => Err(SessionFault::NoSession),
    }
}

pub fn another_fault(alloc: Global, refusals: &mut Refusals) -> Shown {
    let mut items = given::bytes(alloc, b"12345678")?.into_vec();
    again!(refusals, add_otherwise(&mut items, b"a longer text"))?;
    shown(alloc, &Sequence::from_vec(items))
}

/// Adds a text; where there is no memory for it, what was there is lost.
fn add_and_lose(items: &mut Vec<u8>, text: &[u8]) -> Result<(), AllocError> {
    match items.extend_from_slice(text) {
        Ok(()) => Ok(()),
        Err(_) => {
            items.clear();
            Err(AllocError)
        }
    }
}

pub fn what_was_there_lost(alloc: Global, refusals: &mut Refusals) -> Shown {
    let mut items = given::bytes(alloc, b"12345678")?.into_vec();
    again!(refusals, add_and_lose(&mut items, b"a longer text"))?;
    shown(alloc, &Sequence::from_vec(items))
}
