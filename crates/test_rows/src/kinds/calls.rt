//! What came of a row of calls, by its kind: of those on sessions and replies, of dispatches, and of what authors share.

use crate::authors;
use crate::dispatches::{filters, kinds, nesting, pages, shown};
use crate::fault::RowFault;
use crate::servlets::{self, attributes, lives, replies};
use crate::sessions::{self, expiry, faults};
use std::alloc::Global;

fn of_dispatch(alloc: Global, kind: &str, parts: &str) -> Result<String, RowFault> {
    match kind {
        "chain" => filters::chain(alloc, parts),
        "included" => filters::included(alloc),
        "carried" => filters::carried(alloc, parts),
        "filtered" => kinds::filtered(alloc, parts),
        "nested" => nesting::nested(alloc, parts),
        "looped" => nesting::looped(alloc),
        "page" => pages::page(alloc, parts),
        "shown" => shown::shown(alloc, parts),
        _ => authors::tried(alloc, kind, parts),
    }
}

fn of_servlet(alloc: Global, kind: &str, parts: &str) -> Result<String, RowFault> {
    match kind {
        "reply" => replies::reply(alloc, parts),
        "reply-fault" => replies::fault(alloc, parts),
        "request-attributes" => attributes::attributes(alloc, parts),
        "init" => attributes::init_text(alloc),
        "lives" => lives::lives(alloc),
        "filter" => servlets::filters::boxed(alloc),
        _ => of_dispatch(alloc, kind, parts),
    }
}

/// What came of the parts of a row of this kind.
pub fn tried(alloc: Global, kind: &str, parts: &str) -> Result<String, RowFault> {
    match kind {
        "edit" => sessions::edit(alloc, parts),
        "expired" => expiry::expires(alloc, parts),
        "joined" => expiry::joined(alloc, parts),
        "session-fault" => faults::fault(alloc, parts),
        _ => of_servlet(alloc, kind, parts),
    }
}
