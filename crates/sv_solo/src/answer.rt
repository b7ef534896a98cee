//! Says what a step of the site leads to.

ghost use Rattle.std.specs.Prelude.{◌≡◌, ℕ, true, false, Err, Some, find, vec_items};
ghost use Rattle.sv_model.specs.Site.{with_list};
ghost use Rattle.sv_connection.specs.Connection.{is_closed, is_waiting};
ghost use Rattle.sv_connection.specs.Speak.{IsSaid, IsStarved};
ghost use Rattle.sv_connection.specs.declared.outcome.Outcome.TheVariants.{Parked};
ghost use Rattle.sv_solo.specs.Manner.{manner_of};
ghost use Rattle.sv_solo.specs.Reply.{refusal, speaks_to};
ghost use Rattle.sv_solo.specs.Serve.{outputs_of, said_by, verdict, Follows, Stays};

use crate::reply::{refusal, reply_to};
use std::alloc::Global;
use std::io::Write;
use sv_connection::{Connection, Outcome, RequestFault};
use sv_message::fault::ReadFault;
use sv_model::{Cause, Output, Request, Response, StepFault, is_head};

/// How the response to a request is to be.
#[derive(Clone, Copy, Debug, PartialEq, Eq)]
pub struct Manner {
    /// Without its body, as to a HEAD request.
    pub head_only: bool,
    /// The connection closes after it.
    pub close: bool,
    /// The seconds of its Date field.
    pub now: u64,
}

/// How the response to a request is to be, at `now` in whole seconds.
pub fn manner_of(request: &Request, now: u64) -> Manner
    ensures { result ≡ manner_of request.now now }
{
    Manner {
        head_only: is_head(&request.method),
        close: request.close,
        now,
    }
}

/// The site will answer later.
fn parked(manner: Manner) -> Outcome
    ensures { result ≡ Parked manner.head_only }
{
    Outcome::Parked {
        head_only: manner.head_only,
    }
}

/// Writes the lines that say that memory was refused.
fn starve<W: Write>(connection: &mut Connection, writer: &mut W, now: u64) -> Outcome
    ensures stays { Stays connection.old connection.new result }
    ensures starved { IsStarved (W.contents writer.old) (W.contents writer.new) (is_closed connection.new) result }
{
    let memory = RequestFault::Read(ReadFault::Memory);
    let outcome = connection.refuse(writer, memory, false, now);
    connection.close();
    outcome
}

/// Writes a response.
fn say<W: Write>(
    connection: &mut Connection,
    writer: &mut W,
    response: &Response,
    now: u64,
) -> Outcome
    requires was_open { is_closed connection.old ≡ false }
    ensures stays { Stays connection.old connection.new result }
    ensures said { IsSaid response.now now Outcome.Answered (W.contents writer.old) (W.contents writer.new) (is_closed connection.new) result }
{
    connection.answer(writer, response, now)
}

/// Writes the response for a cause.
fn say_refusal<W: Write>(
    alloc: Global,
    connection: &mut Connection,
    writer: &mut W,
    cause: Cause,
    manner: Manner,
) -> Outcome
    requires was_open { is_closed connection.old ≡ false }
    ensures stays { Stays connection.old connection.new result }
    ensures said { IsSaid (refusal cause manner.head_only manner.close) manner.now Outcome.Answered (W.contents writer.old)
        (W.contents writer.new) (is_closed connection.new) result }
{
    match refusal(alloc, cause, manner.head_only, manner.close) {
        Ok(response) => say(connection, writer, &response, manner.now),
        Err(_) => starve(connection, writer, manner.now),
    }
}

/// Writes what an output says.
fn say_output<W: Write>(
    alloc: Global,
    connection: &mut Connection,
    writer: &mut W,
    output: &Output,
    manner: Manner,
) -> Outcome
    requires asked { is_waiting connection.old ≡ true }
    requires was_open { is_closed connection.old ≡ false }
    ensures stays { Stays connection.old connection.new result }
    ensures follows { Follows (said_by manner.head_only manner.close (Some output.now)) manner.now (W.contents writer.old)
        (W.contents writer.new) (is_closed connection.new) result }
{
    match output {
        Output::Answer { token: _, response } => say(connection, writer, response, manner.now),
        Output::Refuse { token: _, cause } => {
            say_refusal(alloc, connection, writer, *cause, manner)
        }
        Output::Send(_) | Output::Moved | Output::MoveRefused(_) => parked(manner),
    }
}

/// Writes what the first output says that speaks to the token; without one the request is parked.
fn say_outputs<W: Write>(
    alloc: Global,
    connection: &mut Connection,
    writer: &mut W,
    token: u64,
    outputs: &[Output],
    manner: Manner,
) -> Outcome
    requires asked { is_waiting connection.old ≡ true }
    requires was_open { is_closed connection.old ≡ false }
    ensures stays { Stays connection.old connection.new result }
    ensures follows { Follows (said_by manner.head_only manner.close (find (speaks_to token) outputs.now)) manner.now (W.contents writer.old)
        (W.contents writer.new) (is_closed connection.new) result }
{
    match reply_to(token, outputs) {
        Some(output) => say_output(alloc, connection, writer, output, manner),
        None => parked(manner),
    }
}

/// Writes what a fault of the step leads to.
fn say_step_fault<W: Write>(
    alloc: Global,
    connection: &mut Connection,
    writer: &mut W,
    fault: StepFault,
    manner: Manner,
) -> Outcome
    requires was_open { is_closed connection.old ≡ false }
    ensures stays { Stays connection.old connection.new result }
    ensures follows { (token : ℕ) → Follows (verdict token manner.head_only manner.close (Err fault)) manner.now (W.contents writer.old)
        (W.contents writer.new) (is_closed connection.new) result }
{
    match fault {
        StepFault::Full | StepFault::Memory => {
            say_refusal(alloc, connection, writer, fault.cause(), manner)
        }
        StepFault::Failed | StepFault::Device => {
            connection.close();
            Outcome::Failed
        }
    }
}

/// Writes what a step leads to: what it says to the token, or the refusal of a step that was not taken.
pub fn say_step<W: Write>(
    alloc: Global,
    connection: &mut Connection,
    writer: &mut W,
    token: u64,
    step: &Result<Vec<Output>, StepFault>,
    manner: Manner,
) -> Outcome
    requires asked { is_waiting connection.old ≡ true }
    requires was_open { is_closed connection.old ≡ false }
    ensures stays { Stays connection.old connection.new result }
    ensures follows { Follows (verdict token manner.head_only manner.close (with_list vec_items step.now)) manner.now (W.contents writer.old)
        (W.contents writer.new) (is_closed connection.new) result }
{
    match step {
        Ok(outputs) => say_outputs(alloc, connection, writer, token, outputs.as_slice(), manner),
        Err(fault) => say_step_fault(alloc, connection, writer, *fault, manner),
    }
}

/// All that a step has put out.
pub fn outputs_of(alloc: Global, step: Result<Vec<Output>, StepFault>) -> Vec<Output>
    ensures { result.items ≡ outputs_of (with_list vec_items step) }
{
    match step {
        Ok(outputs) => outputs,
        Err(_) => Vec::new(alloc),
    }
}
