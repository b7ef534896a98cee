//! A boxed filter, through its bound. `filter` has no parts.

ghost use Rattle.std.specs.Prelude.{◌≡◌};
ghost use Rattle.sv_servlet.specs.Filter.{verdict};
ghost use Rattle.sv_servlet.specs.Reply.{cleared};
ghost use Rattle.sv_servlet.specs.Servlet.{lent};
ghost use Rattle.sv_servlet.specs.declared.filter.Before.TheVariants.{Stop};
ghost use Rattle.sv_servlet.specs.declared.servlet.Phase.TheVariants.{Ready};

use super::{call_of, fresh_edit, reply_text, written};
use crate::fault::RowFault;
use http::Method;
use std::alloc::{AllocError, Global};
use sv_servlet::{Before, Call, Filter, InitFault, Phase, Reply, RequestAttributes};
use sv_session::SessionEdit;

/// Stops each request, and empties the body after it.
#[derive(Drop)]
struct Emptying {
    phase: Phase,
}

impl Filter for Emptying {
    ghost filtering = { λ f. record { before = λ call l. verdict l Stop; after = λ call l. lent l.edit (cleared l.reply) } };

    ghost filter_phase = { λ f. f.phase };

    fn init(&mut self) -> Result<(), InitFault> {
        self.phase = Phase::Ready;
        Ok(())
    }

    fn before(
        &mut self,
        _call: &Call<'_>,
        _edit: &mut SessionEdit,
        _reply: &mut Reply,
    ) -> Result<Before, AllocError> {
        Ok(Before::Stop)
    }

    fn after(
        &mut self,
        _call: &Call<'_>,
        _edit: &mut SessionEdit,
        reply: &mut Reply,
    ) -> Result<(), AllocError> {
        reply.clear_body();
        Ok(())
    }

    fn destroy(&mut self) {
        self.phase = Phase::Destroyed;
    }
}

fn is_stop(before: Before) -> bool {
    matches!(&before, Before::Stop)
}

/// Calls a filter before and after; whether it stops.
fn call_both<F: Filter>(
    filter: &mut F,
    call: &Call<'_>,
    edit: &mut SessionEdit,
    reply: &mut Reply,
) -> Result<bool, AllocError>
    requires { F.filter_phase filter.old ≡ Ready }
    ensures { F.filter_phase filter.new ≡ Ready }
{
    let stops = is_stop(filter.before(call, edit, reply)?);
    filter.after(call, edit, reply)?;
    Ok(stops)
}

/// Filters one request through the bound; whether the filter stops it.
fn filter_once<F: Filter>(
    alloc: Global,
    filter: &mut F,
    reply: &mut Reply,
) -> Result<bool, AllocError>
    requires { F.filter_phase filter.old ≡ Ready }
    ensures { F.filter_phase filter.new ≡ Ready }
{
    let method = Method::GET;
    let attributes = RequestAttributes::new(alloc);
    let call = call_of(&method, None, &attributes);
    let mut edit = fresh_edit(alloc);
    call_both(filter, &call, &mut edit, reply)
}

/// Whether the filter has stopped a request, and the reply.
fn stopped_text(alloc: Global, has_stopped: bool, reply: Reply) -> Result<String, AllocError> {
    let text = reply_text(alloc, reply)?;
    format!(in alloc; "stops {has_stopped}; {text}")
}

/// Filters one request, with a reply that has a status and a body so far.
fn filtered<F: Filter>(alloc: Global, filter: &mut F) -> Result<String, RowFault>
    requires { F.filter_phase filter.old ≡ Ready }
    ensures { F.filter_phase filter.new ≡ Ready }
{
    let mut reply = written(alloc)?;
    let has_stopped = filter_once(alloc, filter, &mut reply)?;
    Ok(stopped_text(alloc, has_stopped, reply)?)
}

/// Each call reaches the filter in the box.
pub fn boxed(alloc: Global) -> Result<String, RowFault> {
    let mut filter: Box<dyn Filter> = Box::new(alloc, Emptying { phase: Phase::New })?;
    filter.init()?;
    let text = filtered(alloc, &mut filter)?;
    filter.destroy();
    Ok(text)
}
