//! What a servlet does with the requests of one method: it answers them, or the method isn't written.

ghost use Rattle.std.specs.Prelude.{◌≡◌, Option, is_some};
ghost use Rattle.sv_servlet.specs.Call.{Asked};
ghost use Rattle.sv_servlet.specs.declared.servlet.Next.{Next as Following};
ghost use Rattle.sv_web.specs.Exchange.{CompletesSome};
ghost use Rattle.sv_web.specs.Work.{Work};

use crate::exchange::Exchange;
use crate::refusal::Refusal;
use crate::resource::{Delete, Get, Post, Put};
use sv_servlet::Next;

/// What answers the requests of one method, where anything does.
pub trait Handler: Drop {
    /// The work for a call, where the method is written.
    ghost handles: { Self → Option (Asked → Work Following) };

    /// Whether the method is written.
    fn is_written(&self) -> bool
        ensures { result ≡ is_some (handles self.now) };

    /// Answers a request of the method, where it is written; else does nothing.
    fn handle(&mut self, web: &mut Exchange<'_>) -> Result<Next, Refusal>
        ensures same { handles self.new ≡ handles self.old }
        ensures work { CompletesSome (handles self.old) web.old web.new result };
}

/// A method that isn't written.
#[derive(Clone, Copy)]
pub struct Absent;

impl Handler for Absent {
    ghost use Rattle.std.specs.Prelude.{None};

    ghost handles = { λ _. None };

    fn is_written(&self) -> bool {
        false
    }

    fn handle(&mut self, _web: &mut Exchange<'_>) -> Result<Next, Refusal> {
        Ok(Next::Done)
    }
}

/// GET and HEAD, as a type answers it.
#[derive(Clone, Copy, Drop)]
pub struct Gets<T> {
    pub(crate) object: T,
}

impl<T: Get> Handler for Gets<T> {
    ghost use Rattle.std.specs.Prelude.{Some};

    ghost handles = { λ h. Some (T.gets h.object) };

    fn is_written(&self) -> bool {
        true
    }

    fn handle(&mut self, web: &mut Exchange<'_>) -> Result<Next, Refusal> {
        self.object.get(web)
    }
}

/// POST, as a type answers it.
#[derive(Clone, Copy, Drop)]
pub struct Posts<T> {
    pub(crate) object: T,
}

impl<T: Post> Handler for Posts<T> {
    ghost use Rattle.std.specs.Prelude.{Some};

    ghost handles = { λ h. Some (T.posts h.object) };

    fn is_written(&self) -> bool {
        true
    }

    fn handle(&mut self, web: &mut Exchange<'_>) -> Result<Next, Refusal> {
        self.object.post(web)
    }
}

/// PUT, as a type answers it.
#[derive(Clone, Copy, Drop)]
pub struct Puts<T> {
    pub(crate) object: T,
}

impl<T: Put> Handler for Puts<T> {
    ghost use Rattle.std.specs.Prelude.{Some};

    ghost handles = { λ h. Some (T.puts h.object) };

    fn is_written(&self) -> bool {
        true
    }

    fn handle(&mut self, web: &mut Exchange<'_>) -> Result<Next, Refusal> {
        self.object.put(web)
    }
}

/// DELETE, as a type answers it.
#[derive(Clone, Copy, Drop)]
pub struct Deletes<T> {
    pub(crate) object: T,
}

impl<T: Delete> Handler for Deletes<T> {
    ghost use Rattle.std.specs.Prelude.{Some};

    ghost handles = { λ h. Some (T.deletes h.object) };

    fn is_written(&self) -> bool {
        true
    }

    fn handle(&mut self, web: &mut Exchange<'_>) -> Result<Next, Refusal> {
        self.object.delete(web)
    }
}
