//! The dispatches that wait for one another, on a stack of their own.

ghost use Rattle.std.specs.Prelude.{◌≡◌, ◌<◌, ◌≤◌, ◌++◌, ◌∷◌, [], IfOk, OnOk};
ghost use Rattle.sv_dispatch.specs.Dispatching.{outcome, dispatched};
ghost use Rattle.sv_dispatch.specs.Stack.{current, need, whole, work, IsModeOf, IsOn, IsRunning};
ghost use Rattle.sv_dispatch.specs.Stages.{table_of, lent_of, IsSound};
ghost use Rattle.sv_dispatch.specs.declared.mode.Mode.TheVariants.{Enter};

use crate::mode::{Ending, Frame, Mode};
use crate::stage::Stage;
use crate::steps::{enter, leave, serve};
use crate::visit::Ask;
use std::alloc::{AllocError, Global};
use sv_servlet::{Filter, Servlet};

/// The dispatches that may be nested.
const DEPTH: usize = 16;

/// The dispatch that is asked for comes next, and the one that asks waits.
fn nest<'a>(
    frames: &mut Vec<Frame<'a>>,
    frame: Frame<'a>,
    ask: Ask<'a>,
) -> Result<Mode<'a>, AllocError>
    ensures frames { OnOk result (frames.new.items ≡ frames.old.items ++ frame.entry ∷ []) }
    ensures mode { IfOk result (λ mode. mode ≡ Enter ask.entry) }
{
    frames.push(frame)?;
    Ok(Mode::Enter(ask))
}

/// One step of a run that is not over.
fn step<'a, S: Servlet, F: Filter>(
    alloc: Global,
    stage: &mut Stage<S, F>,
    frames: &mut Vec<Frame<'a>>,
    left: &mut u32,
    mode: Mode<'a>,
) -> Result<Mode<'a>, AllocError>
    requires sound { IsSound (table_of S.Servlet F.Filter stage.old) }
    requires running { IsRunning (table_of S.Servlet F.Filter stage.old) frames.old.items mode }
    requires on { IsOn frames.old.items mode }
    ensures same { table_of S.Servlet F.Filter stage.new ≡ table_of S.Servlet F.Filter stage.old }
    ensures running { IfOk result (IsRunning (table_of S.Servlet F.Filter stage.old) frames.new.items) }
    ensures less { IfOk result (λ next. work frames.new.items next left.new < work frames.old.items mode.entry left.old) }
    ensures whole { IfOk result (λ next. whole (table_of S.Servlet F.Filter stage.old) 16 frames.new.items next left.new
        (lent_of stage.new) ≡ whole (table_of S.Servlet F.Filter stage.old) 16 frames.old.items mode.entry left.old
        (lent_of stage.old)) }
{
    match mode {
        Mode::Enter(ask) => {
            if frames.len() >= DEPTH {
                Ok(Mode::Leave(Ending::Abandoned))
            } else {
                enter(alloc, stage, left, ask)
            }
        }
        Mode::Serve(held) => serve(stage, left, held),
        Mode::Nest(frame, ask) => nest(frames, frame, ask),
        Mode::Leave(ended) => match frames.pop() {
            None => Ok(Mode::Leave(ended)),
            Some(frame) => leave(stage, frame, ended),
        },
    }
}

/// Runs what is left of a dispatch that no other waits for, with all that it asks for; `left` service calls are left.
// Apart, so that what ends by itself has no room cleared for a stack.
#[inline(never)]
pub fn run_from<'a, S: Servlet, F: Filter>(
    alloc: Global,
    stage: &mut Stage<S, F>,
    left: &mut u32,
    mode: Mode<'a>,
) -> Result<Ending, AllocError>
    requires sound { IsSound (table_of S.Servlet F.Filter stage.old) }
    requires mode { IsModeOf (table_of S.Servlet F.Filter stage.old) mode }
    requires need { need mode ≤ 1 }
    ensures same { table_of S.Servlet F.Filter stage.new ≡ table_of S.Servlet F.Filter stage.old }
    ensures outcome { IfOk result (λ ended. outcome ended left.new (lent_of stage.new)
        ≡ current (table_of S.Servlet F.Filter stage.old) 16 mode.entry left.old (lent_of stage.old)) }
{
    let mut frames = Vec::new(alloc);
    let mut mode = mode;
    loop {
        match mode {
            Mode::Leave(ended) if frames.is_empty() => return Ok(ended),
            other => mode = step(alloc, stage, &mut frames, left, other)?,
        }
    }
}

/// Runs a dispatch with all that it asks for; `left` service calls are left.
pub fn dispatch<'a, S: Servlet, F: Filter>(
    alloc: Global,
    stage: &mut Stage<S, F>,
    left: &mut u32,
    ask: Ask<'a>,
) -> Result<Ending, AllocError>
    requires { IsSound (table_of S.Servlet F.Filter stage.old) }
    ensures same { table_of S.Servlet F.Filter stage.new ≡ table_of S.Servlet F.Filter stage.old }
    ensures outcome { IfOk result (λ ended. outcome ended left.new (lent_of stage.new)
        ≡ dispatched (table_of S.Servlet F.Filter stage.old) 16 ask.entry left.old (lent_of stage.old)) }
{
    run_from(alloc, stage, left, Mode::Enter(ask))
}
