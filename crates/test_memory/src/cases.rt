//! The cases by their names.

mod carrying;
mod connections;
mod containers;
mod copies;
mod cores;
mod descriptors;
mod dispatches;
mod journals;
mod model;
mod nodes;
mod planted;
mod records;
mod samples;
mod session;
mod web;
mod worlds;

use crate::again::{Refusals, Unshown};
use copies::copied;
use std::alloc::Global;
use sv_model::{
    Attributes, Change, Commit, Event, Field, Input, KeyState, Output, Packet, Record, Request,
    Response, Sequence, Session, Text, Told,
};

/// All of them, in the order of the floors.
pub const NAMES: [&str; 99] = [
    "text-copy",
    "bytes-copy",
    "field-copy",
    "request-copy",
    "response-copy",
    "attributes-copy",
    "session-copy",
    "key-state-copy",
    "change-copy",
    "record-copy",
    "packet-copy",
    "event-copy",
    "told-copy",
    "commit-copy",
    "input-copy",
    "input-packet-copy",
    "output-copy",
    "sequence-push",
    "sequence-extend",
    "attributes-insert",
    "attributes-insert-again",
    "attributes-names",
    "attributes-push",
    "plain-body",
    "plain-page",
    "reader-feed-next",
    "write-response",
    "target-read",
    "target-read-within",
    "params",
    "cookies",
    "pattern-read",
    "mappings-add",
    "filters-for",
    "from-toml",
    "context-paths",
    "document-from-toml",
    "document-faults",
    "document-patterns",
    "edit-set",
    "edit-set-again",
    "edit-set-none",
    "edit-remove",
    "edit-names",
    "edit-invalidate",
    "edit-create",
    "edit-change-id",
    "reply-header",
    "reply-header-again",
    "reply-set",
    "reply-add",
    "reply-set-cookie",
    "reply-write",
    "request-attributes-insert",
    "request-attributes-copy",
    "hello",
    "count",
    "snoop",
    "login",
    "renew",
    "includer",
    "forwarder",
    "faulty",
    "stamp",
    "gate",
    "dispatch-run",
    "dispatch-attribute",
    "container-start",
    "container-serve",
    "container-serve-once",
    "container-serve-recalled",
    "record-read-write",
    "packet-read-write",
    "frame-read-write",
    "memory-disk-with",
    "journal-open",
    "journal-append",
    "journal-compact",
    "core-decide",
    "core-decide-start",
    "core-recover",
    "core-apply",
    "core-snapshot",
    "world-event-copy",
    "world-new-step",
    "world-run",
    "node-open",
    "node-step",
    "node-compact",
    "serve-next",
    "answer",
    "refusal",
    "solo-step",
    "look-at",
    "look-at-no-document",
    "look-at-faults",
    "planted-half-done",
    "planted-another-fault",
    "planted-what-was-there-lost",
];

type Shown = Result<String, Unshown>;

fn of_planted(alloc: Global, refusals: &mut Refusals, name: &str) -> Shown {
    match name {
        "planted-half-done" => planted::half_done(alloc, refusals),
        "planted-another-fault" => planted::another_fault(alloc, refusals),
        "planted-what-was-there-lost" => planted::what_was_there_lost(alloc, refusals),
        _ => Err(Unshown::Other),
    }
}

fn of_connections(alloc: Global, refusals: &mut Refusals, name: &str) -> Shown {
    match name {
        "serve-next" => connections::serve_next(alloc, refusals),
        "answer" => connections::answer(alloc, refusals),
        "refusal" => connections::refused(alloc, refusals),
        "solo-step" => connections::solo_step(alloc, refusals),
        _ => of_planted(alloc, refusals, name),
    }
}

fn of_nodes(alloc: Global, refusals: &mut Refusals, name: &str) -> Shown {
    match name {
        "node-open" => nodes::open(alloc, refusals),
        "node-step" => nodes::step(alloc, refusals),
        "node-compact" => nodes::compact(alloc, refusals),
        _ => of_connections(alloc, refusals, name),
    }
}

fn of_worlds(alloc: Global, refusals: &mut Refusals, name: &str) -> Shown {
    match name {
        "world-event-copy" => worlds::event_copy(alloc, refusals),
        "world-new-step" => worlds::steps(alloc, refusals),
        "world-run" => worlds::run(alloc, refusals),
        _ => of_nodes(alloc, refusals, name),
    }
}

fn of_cores(alloc: Global, refusals: &mut Refusals, name: &str) -> Shown {
    match name {
        "core-decide" => cores::decide(alloc, refusals),
        "core-decide-start" => cores::decide_start(alloc, refusals),
        "core-recover" => cores::recover(alloc, refusals),
        "core-apply" => cores::apply_again(alloc, refusals),
        "core-snapshot" => cores::snapshot(alloc, refusals),
        _ => of_worlds(alloc, refusals, name),
    }
}

fn of_journals(alloc: Global, refusals: &mut Refusals, name: &str) -> Shown {
    match name {
        "memory-disk-with" => journals::disk(alloc, refusals),
        "journal-open" => journals::open(alloc, refusals),
        "journal-append" => journals::append(alloc, refusals),
        "journal-compact" => journals::compact(alloc, refusals),
        _ => of_cores(alloc, refusals, name),
    }
}

fn of_records(alloc: Global, refusals: &mut Refusals, name: &str) -> Shown {
    match name {
        "record-read-write" => records::record(alloc, refusals),
        "packet-read-write" => records::packet(alloc, refusals),
        "frame-read-write" => records::frame(alloc, refusals),
        _ => of_journals(alloc, refusals, name),
    }
}

fn of_container(alloc: Global, refusals: &mut Refusals, name: &str) -> Shown {
    match name {
        "dispatch-run" => dispatches::dispatched(alloc, refusals),
        "dispatch-attribute" => dispatches::carried(alloc, refusals),
        "container-start" => containers::start(alloc, refusals),
        "container-serve" => containers::serve_again(alloc, refusals),
        "container-serve-once" => containers::serve_once(alloc, refusals),
        "container-serve-recalled" => containers::serve_recalled(alloc, refusals),
        _ => of_records(alloc, refusals, name),
    }
}

fn of_samples(alloc: Global, refusals: &mut Refusals, name: &str) -> Shown {
    match name {
        "hello" | "count" | "snoop" | "login" | "renew" => samples::tried(alloc, refusals, name),
        "includer" | "forwarder" | "faulty" | "stamp" | "gate" => {
            samples::tried(alloc, refusals, name)
        }
        _ => of_container(alloc, refusals, name),
    }
}

fn of_session(alloc: Global, refusals: &mut Refusals, name: &str) -> Shown {
    match name {
        "edit-names" => session::names(alloc, refusals),
        "request-attributes-insert" => session::attribute(alloc, refusals),
        "request-attributes-copy" => session::attributes(alloc, refusals),
        _ if name.starts_with("edit-") => session::edited(alloc, refusals, name),
        _ if name.starts_with("reply-") => session::called(alloc, refusals, name),
        _ => of_samples(alloc, refusals, name),
    }
}

fn of_look(alloc: Global, refusals: &mut Refusals, name: &str) -> Shown {
    match name {
        "look-at" => descriptors::look(alloc, refusals),
        "look-at-no-document" => descriptors::look_at_none(alloc, refusals),
        "look-at-faults" => descriptors::look_at_faults(alloc, refusals),
        _ => of_session(alloc, refusals, name),
    }
}

fn of_descriptors(alloc: Global, refusals: &mut Refusals, name: &str) -> Shown {
    match name {
        "from-toml" => descriptors::deployment(alloc, refusals),
        "context-paths" => descriptors::context_paths(alloc, refusals),
        "document-from-toml" => descriptors::document(alloc, refusals),
        "document-faults" => descriptors::faults(alloc, refusals),
        "document-patterns" => descriptors::patterns(alloc, refusals),
        _ => of_look(alloc, refusals, name),
    }
}

fn of_mapping(alloc: Global, refusals: &mut Refusals, name: &str) -> Shown {
    match name {
        "pattern-read" => web::pattern(alloc, refusals),
        "mappings-add" => web::mappings(alloc, refusals),
        "filters-for" => web::filters(alloc, refusals),
        _ => of_descriptors(alloc, refusals, name),
    }
}

fn of_web(alloc: Global, refusals: &mut Refusals, name: &str) -> Shown {
    match name {
        "reader-feed-next" => web::reader(alloc, refusals),
        "write-response" => web::response(alloc, refusals),
        "target-read" => web::target(alloc, refusals),
        "target-read-within" => web::target_within(alloc, refusals),
        "params" => web::parameters(alloc, refusals),
        "cookies" => web::cookie_pairs(alloc, refusals),
        _ => of_mapping(alloc, refusals, name),
    }
}

fn of_model(alloc: Global, refusals: &mut Refusals, name: &str) -> Shown {
    match name {
        "sequence-push" => model::push(alloc, refusals),
        "sequence-extend" => model::extend(alloc, refusals),
        "attributes-insert" => model::inserted(alloc, refusals, "age", b"17"),
        "attributes-insert-again" => model::inserted(alloc, refusals, "user", b"bob"),
        "attributes-names" => model::names(alloc, refusals),
        "attributes-push" => model::pushed(alloc, refusals),
        "plain-body" => model::body(alloc, refusals),
        "plain-page" => model::page(alloc, refusals),
        _ => of_web(alloc, refusals, name),
    }
}

fn of_step_copy(alloc: Global, refusals: &mut Refusals, name: &str) -> Shown {
    match name {
        "told-copy" => copied::<Told>(alloc, refusals),
        "commit-copy" => copied::<Commit>(alloc, refusals),
        "input-copy" => copied::<Input>(alloc, refusals),
        "input-packet-copy" => copies::packet_in(alloc, refusals),
        "output-copy" => copied::<Output>(alloc, refusals),
        _ => of_model(alloc, refusals, name),
    }
}

fn of_node_copy(alloc: Global, refusals: &mut Refusals, name: &str) -> Shown {
    match name {
        "key-state-copy" => copied::<KeyState>(alloc, refusals),
        "change-copy" => copied::<Change>(alloc, refusals),
        "record-copy" => copied::<Record>(alloc, refusals),
        "packet-copy" => copied::<Packet>(alloc, refusals),
        "event-copy" => copied::<Event>(alloc, refusals),
        _ => of_step_copy(alloc, refusals, name),
    }
}

/// What a case shows in the end.
pub fn shown(alloc: Global, refusals: &mut Refusals, name: &str) -> Shown {
    match name {
        "text-copy" => copied::<Text>(alloc, refusals),
        "bytes-copy" => copied::<Sequence<u8>>(alloc, refusals),
        "field-copy" => copied::<Field>(alloc, refusals),
        "request-copy" => copied::<Request>(alloc, refusals),
        "response-copy" => copied::<Response>(alloc, refusals),
        "attributes-copy" => copied::<Attributes>(alloc, refusals),
        "session-copy" => copied::<Session>(alloc, refusals),
        _ => of_node_copy(alloc, refusals, name),
    }
}
