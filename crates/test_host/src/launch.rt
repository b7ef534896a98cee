//! What the program `node` does: its words, its descriptors, and streams of requests, served as the program serves them, byte for byte.
//! That a stream is served call by call is proved; which objects the names of a descriptor stand for at a reader, and what the whole
//! answers, is shown here.
//!
//! Each answer is written out: by RFC 9112, sections 4 to 6, a status line, the Date of the moment (784111777 is the
//! example date of RFC 9110, section 5.6.7), the fields of the page, Content-Length, Connection where it closes.

mod cookies;
pub mod descriptors;
mod dispatch;
mod expiry;
mod mapping;
mod messages;
mod nesting;
mod overheard;
pub mod renewing;
mod sessions;
mod streams;
mod words;

use crate::expect::expect;
use std::alloc::Global;
use std::process::Abort;
use streams::{Input, Output, Way};
use sv_launch::{Applications, Fault, deployment_in};
use sv_showcase::showcase;

const NOW: u64 = 784_111_777;

/// What the stream shows, the stream, and all that is written for it, with the fault that ends it and its exit status after.
pub struct Row(&'static str, &'static str, &'static str);

/// Streams that the deployment of a descriptor serves, each by a container of its own.
pub struct Table {
    descriptor: &'static str,
    way: Way,
    rows: &'static [Row],
}

/// Serves a stream by the samples of a descriptor.
fn serve(
    alloc: Global,
    descriptor: &str,
    reader: &mut Input,
    writer: &mut Output,
) -> Result<(), Fault> {
    let deployment = deployment_in(alloc, descriptor)?;
    showcase(alloc).stream(alloc, deployment, &[], NOW, reader, writer)
}

/// All that is written for a stream that is served by a descriptor, and the fault that ends it.
fn answered(rt: &impl Abort, alloc: Global, descriptor: &str, way: Way, input: &str) -> String {
    let mut reader = Input::new(input, way);
    let mut writer = Output::new(alloc, way);
    let end = serve(alloc, descriptor, &mut reader, &mut writer);
    writer.ended(rt, end)
}

/// Each stream of a table is answered as its row says.
fn expect_table(rt: &(impl Abort + AllocGlobal), table: &Table) {
    for Row(name, input, output) in table.rows {
        let text = answered(rt, rt.alloc(), table.descriptor, table.way, input);
        expect(rt, name, text.as_str(), output);
    }
}

fn expect_tables(rt: &(impl Abort + AllocGlobal), tables: &[Table]) {
    for table in tables {
        expect_table(rt, table);
    }
}

// Each lends few tables: a proof grows with the square of the text that a body lends.

fn expect_built_in_paths(rt: &(impl Abort + AllocGlobal)) {
    expect_tables(rt, &mapping::BUILT);
}

fn expect_paths(rt: &(impl Abort + AllocGlobal)) {
    expect_tables(rt, &mapping::WRITTEN);
}

fn expect_dispatch(rt: &(impl Abort + AllocGlobal)) {
    expect_tables(rt, &dispatch::TABLES);
}

fn expect_includes(rt: &(impl Abort + AllocGlobal)) {
    expect_tables(rt, &nesting::INCLUDES);
}

fn expect_forwards(rt: &(impl Abort + AllocGlobal)) {
    expect_tables(rt, &nesting::FORWARDS);
}

fn expect_both(rt: &(impl Abort + AllocGlobal)) {
    expect_tables(rt, &nesting::MIXED);
}

fn expect_pages(rt: &(impl Abort + AllocGlobal)) {
    expect_tables(rt, &nesting::PAGES);
}

fn expect_filters(rt: &(impl Abort + AllocGlobal)) {
    expect_tables(rt, &nesting::FILTERED);
}

fn expect_messages(rt: &(impl Abort + AllocGlobal)) {
    expect_tables(rt, &messages::SERVED);
}

fn expect_refusals(rt: &(impl Abort + AllocGlobal)) {
    expect_tables(rt, &messages::REFUSED);
}

fn expect_named_sessions(rt: &(impl Abort + AllocGlobal)) {
    expect_tables(rt, &sessions::NAMED);
}

fn expect_given_sessions(rt: &(impl Abort + AllocGlobal)) {
    expect_tables(rt, &sessions::GIVEN);
}

fn expect_chosen_cookies(rt: &(impl Abort + AllocGlobal)) {
    expect_tables(rt, &cookies::CHOICES);
}

fn expect_renewing(rt: &(impl Abort + AllocGlobal)) {
    expect_tables(rt, &renewing::TABLES);
}

fn expect_streams(rt: &(impl Abort + AllocGlobal)) {
    expect_tables(rt, &streams::TABLES);
}

fn expect_dispatches(rt: &(impl Abort + AllocGlobal)) {
    expect_dispatch(rt);
    expect_includes(rt);
    expect_forwards(rt);
    expect_both(rt);
    expect_pages(rt);
    expect_filters(rt);
}

fn expect_sessions(rt: &(impl Abort + AllocGlobal)) {
    expect_named_sessions(rt);
    expect_given_sessions(rt);
    expect_chosen_cookies(rt);
    expect_renewing(rt);
}

#[test]
fn streams_are_answered(rt: HostRuntime) {
    expect_built_in_paths(&rt);
    expect_paths(&rt);
    expect_dispatches(&rt);
    expect_messages(&rt);
    expect_refusals(&rt);
    expect_sessions(&rt);
    expect_streams(&rt);
    descriptors::expect_faults(&rt);
    expiry::expect_rows(&rt);
}
