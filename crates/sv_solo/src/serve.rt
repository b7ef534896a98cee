//! Serves requests from a reader to a writer, over a site.

ghost use Rattle.std.specs.Prelude.{◌≡◌, true, false, []};
ghost use Rattle.sv_message.specs.declared.request.RawRequest.{RawRequest as Raw};
ghost use Rattle.sv_target.specs.declared.target.Target.{Target as TargetValue};
ghost use Rattle.sv_connection.specs.Connection.{is_closed, is_single, is_waiting};
ghost use Rattle.sv_connection.specs.Request.{request_of};
ghost use Rattle.sv_connection.specs.declared.outcome.Outcome.TheVariants.{Closed};
ghost use Rattle.sv_solo.specs.Serve.{how, is_parked, sight_of, IsAnswered, IsServed, Stays};

use crate::answer::{manner_of, outputs_of, say_step};
use crate::reading::{Arrived, arrive};
use crate::served::Served;
use std::alloc::Global;
use std::io::{Read, Write};
use sv_connection::{Connection, Outcome};
use sv_model::{Input, Moment, Request, Site};

/// A call that has not stepped the site.
fn unserved(alloc: Global, outcome: Outcome) -> Served
    ensures outcome { result.outcome ≡ outcome }
    ensures outputs { result.outputs.items ≡ [] }
{
    Served {
        outcome,
        outputs: Vec::new(alloc),
    }
}

/// Steps the site by a request that was taken, and says what it answers.
fn ask<W: Write, S: Site>(
    alloc: Global,
    connection: &mut Connection,
    writer: &mut W,
    site: &mut S,
    moment: Moment,
    token: u64,
    request: Request,
) -> Served
    requires valid { S.site_valid site.old }
    requires asked { is_waiting connection.old ≡ true }
    requires was_open { is_closed connection.old ≡ false }
    ensures valid { S.site_valid site.new }
    ensures stays { Stays connection.old connection.new result.outcome }
    ensures answered { (raw : Raw) (target : TargetValue) → request ≡ request_of (is_single connection.old) raw target
        → IsAnswered S.steps (how moment token (is_single connection.old)) raw target site.old site.new (W.contents writer.old)
        (W.contents writer.new) (is_closed connection.new) result }
{
    let manner = manner_of(&request, moment.now);
    let step = site.step(moment, Input::Ask { token, request });
    let outcome = say_step(alloc, connection, writer, token, &step, manner);
    Served {
        outcome,
        outputs: outputs_of(alloc, step),
    }
}

/// Reads one request, steps the site by it as an Ask with the token, and writes what the step says to the
/// token. Not called while an earlier request waits.
///
/// A fault of the message, or of the method and the target, is answered with its plain page and not handed
/// on. Where the site's step is refused for want of room or memory, the answer is a 503 with the cause.
pub fn serve_next<R: Read, W: Write, S: Site>(
    alloc: Global,
    connection: &mut Connection,
    reader: &mut R,
    writer: &mut W,
    site: &mut S,
    moment: Moment,
    token: u64,
) -> Served
    requires valid { S.site_valid site.old }
    requires answered { is_waiting connection.old ≡ false }
    ensures valid { S.site_valid site.new }
    ensures single { is_single connection.new ≡ is_single connection.old }
    ensures waiting { is_waiting connection.new ≡ is_parked result.outcome }
    ensures once_closed { is_closed connection.old ≡ true → (result.outcome ≡ Closed) × (R.remaining reader.new ≡ R.remaining reader.old) }
    ensures served { IsServed S.steps (how moment token (is_single connection.old)) (sight_of connection.old (R.remaining reader.old) (W.contents writer.old) site.old)
        (sight_of connection.new (R.remaining reader.new) (W.contents writer.new) site.new) result }
{
    if connection.closed() {
        return unserved(alloc, Outcome::Closed);
    }
    match arrive(connection, reader) {
        Arrived::Request(request) => ask(alloc, connection, writer, site, moment, token, request),
        Arrived::Refused { fault, head_only } => {
            let outcome = connection.refuse(writer, fault, head_only, moment.now);
            unserved(alloc, outcome)
        }
        Arrived::End => unserved(alloc, Outcome::Closed),
        Arrived::Broken => unserved(alloc, Outcome::ReadFailed),
    }
}
