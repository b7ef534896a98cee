//! What the applications of a deployment are started for.

ghost use Rattle.std.specs.Prelude.{ℕ, List, Result, IfOk};
ghost use Rattle.sv_model.specs.Engine.{EngineMeaning};
ghost use Rattle.sv_host.specs.Running.{HasRun};

use crate::fault::Fault;
use std::alloc::Global;
use sv_host::{Paths, Place, run_node};
use sv_journal::{Disk, FileDisk};
use sv_model::Engine;
use sv_net::Persistence;

/// What an engine is made for.
pub trait Purpose: Drop {
    ghost use Rattle.sv_launch.specs.declared.fault.Fault.{Fault};

    /// What was done with an engine that means this, and whose listeners had heard this, if it ended so.
    ghost serves: { EngineMeaning → List (List ℕ) → Self → Result (Unit {0}) Fault → Type 0 };

    /// Serves by the engine, to the end.
    fn serve<E: Engine + Drop>(self, alloc: Global, engine: E) -> Result<(), Fault>
        requires { E.valid engine }
        ensures served { serves (E.meaning engine) (E.heard engine) self result };
}

/// A node of a cluster, over its files.
#[derive(Drop)]
pub struct Running<'a> {
    pub machine: &'a HostRuntime,
    pub place: Place,
    pub persistence: Persistence,
    pub paths: Paths<'a>,
}

impl Purpose for Running<'_> {
    ghost serves = { λ meaning heard running result. IfOk result (λ _. HasRun ⟦<FileDisk as Disk>⟧.tells ⟦<FileDisk as Disk>⟧.seen
        ⟦<FileDisk as Disk>⟧.may_leave meaning heard running.place running.persistence) };

    fn serve<E: Engine + Drop>(self, _alloc: Global, engine: E) -> Result<(), Fault> {
        let Running {
            machine,
            place,
            persistence,
            paths,
        } = self;
        run_node(machine, engine, place, persistence, paths)?;
        Ok(())
    }
}
