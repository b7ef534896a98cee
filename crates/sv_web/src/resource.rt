//! What answers the requests of one method (RFC 9110, section 9.3), as its author writes it. A [`Refusal`] is followed by what
//! [`crate::HttpServlet::serve`] says of it.

ghost use Rattle.std.specs.Prelude.{◌≡◌};
ghost use Rattle.sv_servlet.specs.Call.{Asked};
ghost use Rattle.sv_servlet.specs.declared.servlet.Next.{Next as Following};
ghost use Rattle.sv_web.specs.Exchange.{Completes};
ghost use Rattle.sv_web.specs.Work.{Work};

use crate::exchange::Exchange;
use crate::refusal::Refusal;
use sv_servlet::Next;

/// What answers GET, and HEAD, whose answer is sent without its body (section 9.3.2).
pub trait Get: Drop {
    /// The work for a call.
    ghost gets: { Self → Asked → Work Following };

    fn get(&mut self, web: &mut Exchange<'_>) -> Result<Next, Refusal>
        ensures same { gets self.new ≡ gets self.old }
        ensures work { Completes (gets self.old web.old.call.now) web.old web.new result };
}

/// What answers POST.
pub trait Post: Drop {
    /// The work for a call.
    ghost posts: { Self → Asked → Work Following };

    fn post(&mut self, web: &mut Exchange<'_>) -> Result<Next, Refusal>
        ensures same { posts self.new ≡ posts self.old }
        ensures work { Completes (posts self.old web.old.call.now) web.old web.new result };
}

/// What answers PUT.
pub trait Put: Drop {
    /// The work for a call.
    ghost puts: { Self → Asked → Work Following };

    fn put(&mut self, web: &mut Exchange<'_>) -> Result<Next, Refusal>
        ensures same { puts self.new ≡ puts self.old }
        ensures work { Completes (puts self.old web.old.call.now) web.old web.new result };
}

/// What answers DELETE.
pub trait Delete: Drop {
    /// The work for a call.
    ghost deletes: { Self → Asked → Work Following };

    fn delete(&mut self, web: &mut Exchange<'_>) -> Result<Next, Refusal>
        ensures same { deletes self.new ≡ deletes self.old }
        ensures work { Completes (deletes self.old web.old.call.now) web.old web.new result };
}
