//! What came of a row, by its kind: where none of a function's kinds is meant, the next one is asked.

mod calls;

use crate::application::{contexts, deployed, descriptors, filters, patterns, servlets};
use crate::fault::RowFault;
use crate::record::{self, attributes, changed, frames, greetings, keys, spelled};
use crate::watched;
use crate::web::{cookies, fields, forms, lengths, responses, streams, targets};
use std::alloc::Global;
use sv_model::{Packet, Record};

fn of_figures(alloc: Global, kind: &str, parts: &str) -> Result<String, RowFault> {
    match kind {
        "figures" => watched::figures(alloc, parts),
        "cut-figures" => watched::cut(alloc, parts),
        "figure" => watched::figure(alloc, parts),
        "rate" => watched::rate(alloc, parts),
        "known-keys" => watched::keys(alloc, parts),
        "table" => watched::plain(alloc, parts),
        "screen" => watched::drawn(alloc, parts),
        _ => calls::tried(alloc, kind, parts),
    }
}

fn of_journal(alloc: Global, kind: &str, parts: &str) -> Result<String, RowFault> {
    match kind {
        "journal-keys" => keys::text(alloc, parts),
        "journal-keys-json" => keys::json(alloc, parts),
        _ => of_figures(alloc, kind, parts),
    }
}

fn of_record(alloc: Global, kind: &str, parts: &str) -> Result<String, RowFault> {
    match kind {
        "record" => spelled::now::<Record>(alloc, parts),
        "old-record" => spelled::old::<Record>(alloc, parts),
        "packet" => spelled::now::<Packet>(alloc, parts),
        "old-packet" => spelled::old::<Packet>(alloc, parts),
        "frame" => frames::frame(alloc, parts),
        "old-frame" => frames::old(alloc, parts),
        "greeting" => greetings::greeting(alloc, parts),
        "attributes" => attributes::attributes(alloc, parts),
        "changed" => changed::changed(alloc, parts),
        "count" => record::count(alloc, parts),
        _ => of_journal(alloc, kind, parts),
    }
}

fn of_path(alloc: Global, kind: &str, parts: &str) -> Result<String, RowFault> {
    match kind {
        "context" => contexts::context(alloc, parts),
        "below" => contexts::below(alloc, parts),
        "servlet" => servlets::servlet(alloc, parts),
        "pattern" => patterns::pattern(alloc, parts),
        "long-pattern" => patterns::long(alloc, parts),
        "filters" => filters::filters(alloc, parts),
        "dispatcher" => filters::dispatcher(alloc, parts),
        _ => of_record(alloc, kind, parts),
    }
}

fn of_descriptor(alloc: Global, kind: &str, parts: &str) -> Result<String, RowFault> {
    match kind {
        "config" => descriptors::config(alloc, parts),
        "counted" => descriptors::counted(alloc, parts),
        "checked" => descriptors::checked(alloc, parts),
        "cluster" => descriptors::cluster(alloc, parts),
        "contexts" => descriptors::contexts(alloc, parts),
        "deployed-context" => deployed::context(alloc, parts),
        "deployed-servlet" => deployed::servlet(alloc, parts),
        "deployed-filters" => deployed::filters(alloc, parts),
        _ => of_path(alloc, kind, parts),
    }
}

fn of_cookie(alloc: Global, kind: &str, parts: &str) -> Result<String, RowFault> {
    match kind {
        "cookies" => cookies::pairs(alloc, parts),
        "session" => cookies::session(alloc, parts),
        "asked" => cookies::asked(alloc, parts),
        "session-text" => cookies::text(alloc, parts),
        _ => of_descriptor(alloc, kind, parts),
    }
}

fn of_target(alloc: Global, kind: &str, parts: &str) -> Result<String, RowFault> {
    match kind {
        "path" => targets::path(alloc, parts),
        "target" => targets::target(alloc, parts),
        "method" => targets::method(alloc, parts),
        "raw-path" => targets::raw_path(alloc, parts),
        "params" => forms::parameters(alloc, parts),
        "both" => forms::both(alloc, parts),
        "form" => forms::body(alloc, parts),
        _ => of_cookie(alloc, kind, parts),
    }
}

/// What came of the parts of a row of this kind.
pub fn tried(alloc: Global, kind: &str, parts: &str) -> Result<String, RowFault> {
    match kind {
        "stream" => streams::stream(alloc, parts),
        "body" => streams::body(alloc, parts),
        "long" => streams::long(alloc, parts),
        "length" => lengths::length(alloc, parts),
        "fields" => fields::fields(alloc, parts),
        "response" => responses::response(alloc, parts),
        _ => of_target(alloc, kind, parts),
    }
}
