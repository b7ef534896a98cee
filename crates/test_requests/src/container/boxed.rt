//! The two applications with boxed objects, as a program hands them in: each box hears what its object is to hear.
//!
//! Boxes of objects stay in the function that makes them and those that it calls, so each kind is made in a step of its own,
//! which goes on to the next.

ghost use Rattle.std.specs.Prelude.{◌≡◌};
ghost use Rattle.sv_container.specs.Life.{AreNamedNew};

use crate::container::cast::{
    filter_of, has_end, has_notes, listener_of, named, new_diary, servlet_of,
};
use crate::container::lives::{FILTERS, LISTENERS, SERVLETS, STARTED, start};
use crate::container::noting::Diary;
use crate::container::served::is_answered;
use crate::fixtures::push;
use std::alloc::Global;
use std::process::Abort;
use sv_container::{Container, Named, Stopped};
use sv_model::Engine;
use sv_servlet::{Filter, Listener, Servlet};

fn boxed<T>(rt: &impl Abort, alloc: Global, object: T) -> Box<T>
    ensures { result.value ≡ object }
{
    Box::new(alloc, object).expect(rt, "memory")
}

/// Boxes the servlets.
fn boxed_life(rt: &impl Abort, alloc: Global, diary: &Diary) -> bool {
    let mut servlets: Vec<Named<Box<dyn Servlet>>> = Vec::new(alloc);
    for part in &SERVLETS {
        let object: Box<dyn Servlet> = boxed(rt, alloc, servlet_of(rt, alloc, diary, part.1, true));
        push(rt, &mut servlets, named(rt, alloc, part, object));
    }
    with_servlets(rt, alloc, diary, servlets)
}

/// Boxes the filters.
fn with_servlets<S: Servlet>(
    rt: &impl Abort,
    alloc: Global,
    diary: &Diary,
    servlets: Vec<Named<S>>,
) -> bool
    requires { AreNamedNew S.servlet_phase servlets.items }
{
    let mut filters: Vec<Named<Box<dyn Filter>>> = Vec::new(alloc);
    for part in &FILTERS {
        let object: Box<dyn Filter> = boxed(rt, alloc, filter_of(rt, alloc, diary, part.1, true));
        push(rt, &mut filters, named(rt, alloc, part, object));
    }
    with_filters(rt, alloc, diary, servlets, filters)
}

/// Boxes the listeners.
fn with_filters<S: Servlet, F: Filter>(
    rt: &impl Abort,
    alloc: Global,
    diary: &Diary,
    servlets: Vec<Named<S>>,
    filters: Vec<Named<F>>,
) -> bool
    requires servlets { AreNamedNew S.servlet_phase servlets.items }
    requires filters { AreNamedNew F.filter_phase filters.items }
{
    let mut listeners: Vec<Named<Box<dyn Listener>>> = Vec::new(alloc);
    for part in &LISTENERS {
        let object: Box<dyn Listener> = boxed(rt, alloc, listener_of(rt, alloc, diary, part.1));
        push(rt, &mut listeners, named(rt, alloc, part, object));
    }
    with_all(rt, alloc, diary, servlets, filters, listeners)
}

/// Starts the container.
fn with_all<S: Servlet, F: Filter, L: Listener>(
    rt: &impl Abort,
    alloc: Global,
    diary: &Diary,
    servlets: Vec<Named<S>>,
    filters: Vec<Named<F>>,
    listeners: Vec<Named<L>>,
) -> bool
    requires servlets { AreNamedNew S.servlet_phase servlets.items }
    requires filters { AreNamedNew F.filter_phase filters.items }
{
    let container = start(rt, alloc, servlets, filters, listeners);
    is_lived(rt, alloc, diary, container)
}

const SERVED: &str = "f1.before f2.before s1.serve f2.after f1.after l1.in l2.in l2.out l1.out ";

const STOPPED: Stopped = Stopped {
    servlets: 3,
    filters: 3,
};

const SHUT_DOWN: &str =
    "s3.destroy f3.destroy l4.down l3.down s2.destroy s1.destroy f2.destroy f1.destroy l2.down l1.down ";

/// The container has started; it serves, and is shut down.
fn is_lived<S: Servlet, F: Filter, L: Listener>(
    rt: &impl Abort,
    alloc: Global,
    diary: &Diary,
    container: Container<S, F, L>,
) -> bool
    requires { ⟦<Container<S, F, L> as Engine>⟧.valid container }
{
    let mut container = container;
    let is_started = has_notes(diary, STARTED);
    let is_answered = is_answered(rt, alloc, &mut container, "/a/1", 200);
    let is_served = has_notes(diary, SERVED);
    let is_stopped = container.shutdown() == STOPPED;
    is_started && is_answered && is_served && is_stopped && has_end(diary, SHUT_DOWN)
}

pub fn boxes_live_as_their_objects_do(rt: &impl Abort, alloc: Global) -> bool {
    boxed_life(rt, alloc, &new_diary(rt, alloc))
}
