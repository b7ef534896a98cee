//! What is done for each command.

ghost use Rattle.std.specs.Prelude.{IfOk};
ghost use Rattle.sv_model.specs.Keys.{IsKey};

use crate::cluster::{config_fault, read_config, read_deployment};
use crate::commands::{address, halt, hand_over, tick, told};
use crate::draining::take_out;
use crate::fault::{DescriptorFault, Fault};
use crate::gone::declare_gone;
use crate::init::init;
use crate::journal::{entries, kept, records};
use crate::program::ask_program;
use crate::room::Keys;
use crate::status::show_status;
use crate::stopping::stop;
use crate::watching::watch;
use crate::whose::check_claim;
use crate::words::{Check, Form, Listing, Order};
use serde::Serialize;
use std::fmt::Display;
use sv_client::{NodeNumber, session_named};
use sv_config::Deployment;
use sv_control::{
    Disclosure, Look, RecordPlace, Replayed, SessionLine, ShownRecord, look_at, losses, places_of,
    replay, session_line, shown_key,
};
use sv_model::{Key, Record};

/// A line on standard output.
fn say(machine: &HostRuntime, text: &str) -> Result<(), Fault> {
    match println!(machine; "{text}") {
        Ok(()) => Ok(()),
        Err(_) => Err(Fault::Output),
    }
}

/// Warns on standard error, where there is something to warn of.
fn warn(machine: &HostRuntime, warning: Option<&str>) {
    if let Some(warning) = warning {
        let _ = eprintln!(machine; "kegctl: warning: {warning}");
    }
}

/// Says what is told of a descriptor.
fn tell(machine: &HostRuntime, look: &Look) -> Result<(), Fault> {
    say(machine, look.text.as_str())?;
    warn(machine, look.warning.as_ref().map(|text| text.as_str()));
    match look.fault {
        None => Ok(()),
        Some(fault) => Err(config_fault(fault)),
    }
}

fn check_text(machine: &HostRuntime, text: &str) -> Result<(), Fault> {
    let look = look_at(machine.alloc(), text)?;
    tell(machine, &look)
}

/// Says what a descriptor has, or where it is at fault.
fn check_config(machine: &HostRuntime, config: &str) -> Result<(), Fault> {
    let text = read_config(machine, config)?;
    check_text(machine, text.as_str())
}

/// What the descriptor at a path says of keys.
fn keys_in(machine: &HostRuntime, config: &str) -> Result<Keys, Fault> {
    match read_deployment(machine, config) {
        Ok(deployment) => Ok(Keys::of(&deployment.cluster)),
        Err(fault) => Err(fault),
    }
}

/// The same, where a descriptor is named.
fn keys_by(machine: &HostRuntime, config: Option<&str>) -> Result<Option<Keys>, Fault> {
    match config {
        Some(config) => Ok(Some(keys_in(machine, config)?)),
        None => Ok(None),
    }
}

/// Says what a descriptor has, whether a program would start with it, and whether a journal can be a node's.
fn check(machine: &HostRuntime, order: Check<'_>) -> Result<(), Fault> {
    check_config(machine, order.config)?;
    if let Some(program) = order.program {
        ask_program(machine, program, order.config)?;
    }
    match order.claim {
        Some(claim) => check_claim(machine, claim, keys_in(machine, order.config)?),
        None => Ok(()),
    }
}

/// Says which sessions are lost, where any are.
fn say_lost(machine: &HostRuntime, lost: &str) -> Result<(), Fault> {
    if lost.is_empty() {
        return say(machine, "no session is lost");
    }
    say(machine, lost.trim_end())?;
    Err(Fault::Descriptor(DescriptorFault::Loses))
}

fn compare(machine: &HostRuntime, old: &Deployment, new: &Deployment) -> Result<(), Fault> {
    match losses(machine.alloc(), old, new) {
        Ok(lost) => say_lost(machine, lost.as_str()),
        Err(_) => Err(Fault::Memory),
    }
}

fn compare_with(machine: &HostRuntime, old: &Deployment, new: &str) -> Result<(), Fault> {
    match read_deployment(machine, new) {
        Ok(new) => compare(machine, old, &new),
        Err(fault) => Err(fault),
    }
}

/// Says which sessions of a descriptor another one loses.
fn compare_configs(machine: &HostRuntime, old: &str, new: &str) -> Result<(), Fault> {
    match read_deployment(machine, old) {
        Ok(old) => compare_with(machine, &old, new),
        Err(fault) => Err(fault),
    }
}

/// A line in the form that is asked for.
fn text_of<L: Display + Serialize>(
    machine: &HostRuntime,
    line: &L,
    form: Form,
) -> Result<String, Fault> {
    let alloc = machine.alloc();
    match form {
        Form::Text => Ok(format!(in alloc; "{line}")?),
        Form::Json => match serde_json::to_string(alloc, line) {
            Ok(text) => Ok(text),
            Err(_) => Err(Fault::Memory),
        },
    }
}

/// What a snapshot has of a session.
fn line_of(
    machine: &HostRuntime,
    record: &Record,
    disclosure: Disclosure,
) -> Result<Option<SessionLine>, Fault> {
    match record {
        Record::State { key, state } => Ok(session_line(machine.alloc(), *key, state, disclosure)?),
        _ => Ok(None),
    }
}

/// A line for a session, where a snapshot has one.
fn show_session(
    machine: &HostRuntime,
    record: &Record,
    disclosure: Disclosure,
    form: Form,
) -> Result<(), Fault> {
    let Some(line) = line_of(machine, record, disclosure)? else {
        return Ok(());
    };
    match text_of(machine, &line, form) {
        Ok(text) => say(machine, text.as_str()),
        Err(fault) => Err(fault),
    }
}

fn show_all(
    machine: &HostRuntime,
    kept: &[Record],
    disclosure: Disclosure,
    form: Form,
) -> Result<(), Fault> {
    for record in kept {
        show_session(machine, record, disclosure, form)?;
    }
    Ok(())
}

/// A line of how many keys a node knows that keeps this, and a warning if they get scarce.
fn show_keys(machine: &HostRuntime, keys: Keys, found: &Replayed, form: Form) -> Result<(), Fault> {
    match text_of(machine, &keys.line(found), form) {
        Ok(text) => say(machine, text.as_str())?,
        Err(fault) => return Err(fault),
    }
    keys.warn(machine, &found.kept);
    Ok(())
}

/// A line for each session of what a node keeps, and behind them one of its keys, where that is asked for.
fn show_found(
    machine: &HostRuntime,
    found: &Replayed,
    keys: Option<Keys>,
    disclosure: Disclosure,
    form: Form,
) -> Result<(), Fault> {
    show_all(machine, &found.kept, disclosure, form)?;
    match keys {
        Some(keys) => show_keys(machine, keys, found, form),
        None => Ok(()),
    }
}

fn show_sessions(
    machine: &HostRuntime,
    listing: Listing<'_>,
    disclosure: Disclosure,
    form: Form,
) -> Result<(), Fault> {
    let keys = keys_by(machine, listing.keys)?;
    let found = kept(machine, listing.journal)?;
    show_found(machine, &found, keys, disclosure, form)
}

/// A line for a record, behind its place.
fn show_record(machine: &HostRuntime, place: RecordPlace, record: &Record) -> Result<(), Fault> {
    match format!(in machine.alloc(); "{place} {}", ShownRecord(record)) {
        Ok(text) => say(machine, text.as_str()),
        Err(_) => Err(Fault::Memory),
    }
}

fn show_placed(
    machine: &HostRuntime,
    places: &[RecordPlace],
    records: &[Record],
) -> Result<(), Fault> {
    for (place, record) in places.iter().zip(records) {
        if let Err(fault) = show_record(machine, *place, record) {
            return Err(fault);
        }
    }
    Ok(())
}

/// A line of how many keys are known by records.
fn show_known(machine: &HostRuntime, keys: Keys, records: &[Record]) -> Result<(), Fault> {
    match replay(machine.alloc(), records) {
        Ok(found) => show_keys(machine, keys, &found, Form::Text),
        Err(fault) => Err(fault.into()),
    }
}

/// A line for each record, and behind them one of the keys, where that is asked for.
fn show_entries(
    machine: &HostRuntime,
    entries: &[Vec<u8>],
    keys: Option<Keys>,
) -> Result<(), Fault> {
    let records = records(machine, entries)?;
    let places = places_of(machine.alloc(), entries)?;
    show_placed(machine, &places, &records)?;
    match keys {
        Some(keys) => show_known(machine, keys, &records),
        None => Ok(()),
    }
}

fn show_records(machine: &HostRuntime, listing: Listing<'_>) -> Result<(), Fault> {
    let keys = keys_by(machine, listing.keys)?;
    let entries = entries(machine, listing.journal)?;
    show_entries(machine, &entries, keys)
}

/// Says what a node's answer means.
fn say_answer(machine: &HostRuntime, answer: u8) -> Result<(), Fault> {
    say(machine, told(answer))?;
    match answer {
        0 => Ok(()),
        _ => Err(Fault::NotDone),
    }
}

/// The key of the session that a word names: the value of its cookie, or its `HOME.SERIAL`.
fn key_of(machine: &HostRuntime, word: &str) -> Result<Key, Fault>
    ensures { IfOk result IsKey }
{
    if let Some(key) = shown_key(word) {
        return Ok(key);
    }
    match session_named(machine.alloc(), word)? {
        Some(session) => Ok(session.key),
        None => Err(Fault::Arguments(
            "SESSION is the value of a session's cookie, 52 digits, or HOME.SERIAL",
        )),
    }
}

fn move_session(
    machine: &HostRuntime,
    port: u16,
    session: &str,
    to: NodeNumber,
) -> Result<(), Fault> {
    let key = key_of(machine, session)?;
    say_answer(machine, hand_over(machine, address(port), key, to)?)
}

fn tick_node(machine: &HostRuntime, port: u16) -> Result<(), Fault> {
    say_answer(machine, tick(machine, address(port))?)
}

fn halt_node(machine: &HostRuntime, port: u16) -> Result<(), Fault> {
    say_answer(machine, halt(machine, address(port))?)
}

/// Does what is asked for.
pub fn carry_out(machine: &HostRuntime, order: Order<'_>) -> Result<(), Fault> {
    match order {
        Order::Check(order) => check(machine, order),
        Order::Init {
            config,
            journal,
            node,
        } => init(machine, config, journal, node),
        Order::Compare { old, new } => compare_configs(machine, old, new),
        Order::Sessions {
            listing,
            disclosure,
            form,
        } => show_sessions(machine, listing, disclosure, form),
        Order::Records(listing) => show_records(machine, listing),
        Order::Move { port, session, to } => move_session(machine, port, session, to),
        Order::Tick { port } => tick_node(machine, port),
        Order::Halt { port } => halt_node(machine, port),
        Order::Status {
            config,
            node,
            question,
        } => show_status(machine, config, node, question),
        Order::Stop { config } => stop(machine, config),
        Order::Drain(order) => take_out(machine, order),
        Order::Gone(order) => declare_gone(machine, &order),
        Order::Watch(order) => watch(machine, order),
    }
}
