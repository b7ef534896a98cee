//! A node over the files of its journal.

ghost use Rattle.std.specs.Prelude.{IfOk};
ghost use Rattle.sv_host.specs.Host.{IsAt};
ghost use Rattle.sv_host.specs.Running.{HasRun};

use crate::fault::HostFault;
use crate::host::{Ended, Host};
use crate::paths::{IfLocked, Paths};
use crate::place::Place;
use crate::time::read;
use std::thread;
use std::time::Duration;
use sv_journal::{Disk, FileDisk, FileFault};
use sv_log::{Level, Milestone, Report, ReportFault};
use sv_model::{Engine, Setting};
use sv_net::{Persistence, port_of};

/// Between two tries to open a file that another process has, in thousandths of a second.
const PAUSE: u64 = 500;

/// A file of the journal, once no other process has it, if the node is to wait for that.
fn open_file(machine: &HostRuntime, path: &str, paths: Paths<'_>) -> Result<FileDisk, FileFault> {
    for _ in 0..u64::MAX {
        match FileDisk::open(machine, path, paths.if_missing) {
            Err(FileFault::Locked) if paths.if_locked == IfLocked::Wait => {
                thread::sleep(machine, Duration::from_millis(PAUSE));
            }
            opened => return opened,
        }
    }
    Err(FileFault::Locked)
}

/// The journal's file, and the second one beside it.
fn open_files(machine: &HostRuntime, paths: Paths<'_>) -> Result<(FileDisk, FileDisk), HostFault> {
    let Ok(other) = format!(in machine.alloc(); "{}.b", paths.journal) else {
        return Err(HostFault::Memory);
    };
    let a = open_file(machine, paths.journal, paths)?;
    let b = open_file(machine, other.as_str(), paths)?;
    Ok((a, b))
}

/// Opens the log and the figures, those that are wanted.
fn open_report(
    machine: &HostRuntime,
    setting: Setting,
    paths: Paths<'_>,
) -> Result<Report, ReportFault> {
    let mut report = Report::none();
    report.know(setting.limit());
    let reading = read(machine);
    report.begin(reading.steady, reading.seconds());
    if let Some(path) = paths.log {
        report.log_to(machine.alloc(), machine, path)?;
    }
    report.at(reading.seconds());
    if let Some(path) = paths.metrics {
        report.count_to(machine.alloc(), machine, path, setting.node)?;
    }
    Ok(report)
}

/// The same, with the first line.
fn report_of(machine: &HostRuntime, place: &Place, paths: Paths<'_>) -> Result<Report, HostFault> {
    let node = place.setting.node;
    let mut report = open_report(machine, place.setting, paths)?;
    let starting = Milestone::Starting {
        node,
        port: port_of(place.ports.as_slice(), node),
        journal: paths.journal,
    };
    report.say(Level::Info, starting);
    report.turn(machine, 0, 0);
    Ok(report)
}

/// What a node has of its machine, and the files of its journal. One that waits for its journal doesn't listen meanwhile.
fn open_both(
    machine: &HostRuntime,
    place: Place,
    persistence: Persistence,
    paths: Paths<'_>,
) -> Result<(Host, FileDisk, FileDisk), HostFault>
    ensures { IfOk result (λ opened. IsAt place persistence opened.0) }
{
    match paths.if_locked {
        IfLocked::End => {
            let host = Host::at(machine, place, persistence)?;
            let (a, b) = open_files(machine, paths)?;
            Ok((host, a, b))
        }
        IfLocked::Wait => {
            let (a, b) = open_files(machine, paths)?;
            let host = Host::at(machine, place, persistence)?;
            Ok((host, a, b))
        }
    }
}

/// The same, with what the node tells.
fn open(
    machine: &HostRuntime,
    place: Place,
    persistence: Persistence,
    paths: Paths<'_>,
) -> Result<(Host, FileDisk, FileDisk), HostFault>
    ensures { IfOk result (λ opened. IsAt place persistence opened.0) }
{
    let report = report_of(machine, &place, paths)?;
    let (host, a, b) = open_both(machine, place, persistence, paths)?;
    Ok((host.reporting(report), a, b))
}

/// Why a node has ended, if not by a command.
fn how_ended<E: Drop>(ended: Ended<E, FileDisk>) -> Result<(), HostFault> {
    match ended.stop.fault() {
        Some(fault) => Err(fault),
        None => Ok(()),
    }
}

/// Runs the node at a place of a cluster over its files. Once it listens at its port it says so by the line `ready` with its number,
/// and serves until a command stops it.
///
/// Faults are found in this order: the log, the figures, the file of secrets, the port, the journal; where the node waits for its
/// journal, those of the journal come before those of the secrets.
pub fn run_node<E: Engine + Drop>(
    machine: &HostRuntime,
    engine: E,
    place: Place,
    persistence: Persistence,
    paths: Paths<'_>,
) -> Result<(), HostFault>
    requires { E.valid engine }
    ensures ran { IfOk result (λ _. HasRun ⟦<FileDisk as Disk>⟧.tells ⟦<FileDisk as Disk>⟧.seen ⟦<FileDisk as Disk>⟧.may_leave (E.meaning engine)
        (E.heard engine) place persistence) }
{
    let (host, a, b) = open(machine, place, persistence, paths)?;
    match host.run(machine, engine, a, b) {
        Ok(ended) => how_ended(ended),
        Err(refused) => Err(refused.fault.into()),
    }
}
