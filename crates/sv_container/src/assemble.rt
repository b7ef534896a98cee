//! Puts the objects into their applications, and the applications into service.

ghost use Rattle.std.specs.Prelude.{◌≡◌, [], All, map, take, drop};
ghost use Rattle.std.specs.Vec.{vec_capacity};
ghost use Rattle.std.specs.Vec.Iter.{into_iter_items};
ghost use Rattle.sv_container.specs.Application.{IsSoundApp, app_of, apps_of, is_able, plan_of};
ghost use Rattle.sv_container.specs.Deployment as spec;
ghost use Rattle.sv_container.specs.Life.{AreNamedNew, AreAble, hosted_of};
ghost use Rattle.sv_container.specs.Listening.{ears_of};

use crate::application::Application;
use crate::named::Named;
use crate::tell::announce;
use std::vec::IntoIter;
use sv_dispatch::Hosted;
use sv_model::{Event, Text};
use sv_servlet::{Filter, Listener, Servlet};

/// An object that has not been initialised.
fn hosted<O>(named: Named<O>) -> Hosted<O>
    ensures { result ≡ hosted_of named }
{
    let Named {
        context: _,
        name,
        object,
    } = named;
    Hosted {
        name: Text::from_string(name),
        object,
        is_ready: false,
    }
}

/// Fills the room of a list with the next objects.
fn fill<O: Drop>(room: &mut Vec<Hosted<O>>, objects: &mut IntoIter<Named<O>>)
    requires { room.old.items ≡ [] }
    ensures items { room.new.items ≡ map hosted_of (take (vec_capacity room.old) (into_iter_items objects.old)) }
    ensures rest { into_iter_items objects.new ≡ drop (vec_capacity room.old) (into_iter_items objects.old) }
{
    let capacity = room.capacity();
    for count in 0..capacity {
        let Some(named) = objects.next() else {
            return;
        };
        let Ok(()) = room.push(hosted(named)) else {
            unreachable!();
        };
    }
}

impl<S: Servlet, F: Filter> Application<S, F> {
    /// Takes its objects from those that are left, and puts itself into service.
    fn assemble(&mut self, servlets: &mut IntoIter<Named<S>>, filters: &mut IntoIter<Named<F>>)
        requires empty { spec.IsEmpty self.old }
        requires servlets { AreNamedNew S.servlet_phase (into_iter_items servlets.old) }
        requires filters { AreNamedNew F.filter_phase (into_iter_items filters.old) }
        ensures sound { IsSoundApp (app_of S.Servlet F.Filter self.new) }
        ensures service { self.new.is_in_service ≡ is_able (app_of S.Servlet F.Filter self.new) }
        ensures plan { plan_of (app_of S.Servlet F.Filter self.new)
            ≡ spec.plan_with (spec.frame_of self.old) (take (spec.frame_of self.old).servlets (spec.identities_of S.serves (into_iter_items servlets.old)))
            (take (spec.frame_of self.old).filters (spec.identities_of F.filtering (into_iter_items filters.old))) }
        ensures servlets { into_iter_items servlets.new ≡ drop (spec.frame_of self.old).servlets (into_iter_items servlets.old) }
        ensures filters { into_iter_items filters.new ≡ drop (spec.frame_of self.old).filters (into_iter_items filters.old) }
    {
        fill(&mut self.stage.servlets, servlets);
        fill(&mut self.stage.filters, filters);
        self.launch();
    }
}

/// For each application: its listeners are told that it comes up, then its filters and its servlets are initialised. The
/// objects stand in the order of the applications.
pub fn assemble_all<S: Servlet, F: Filter, L: Listener>(
    applications: &mut Vec<Application<S, F>>,
    servlets: Vec<Named<S>>,
    filters: Vec<Named<F>>,
    listeners: &mut Vec<Named<L>>,
)
    requires empty { All spec.IsEmpty applications.old.items }
    requires servlets { AreNamedNew S.servlet_phase servlets.items }
    requires filters { AreNamedNew F.filter_phase filters.items }
    ensures sound { All IsSoundApp (apps_of S.Servlet F.Filter applications.new.items) }
    ensures service { AreAble (apps_of S.Servlet F.Filter applications.new.items) }
    ensures plans { map plan_of (apps_of S.Servlet F.Filter applications.new.items)
        ≡ spec.plans_for (map spec.frame_of applications.old.items) (spec.identities_of S.serves servlets.items)
        (spec.identities_of F.filtering filters.items) }
    ensures listeners { ears_of L.hears listeners.new.items ≡ ears_of L.hears listeners.old.items }
{
    let mut servlets = servlets.into_iter();
    let mut filters = filters.into_iter();
    for at in 0..applications.len() {
        announce(listeners, applications[at].number, Event::ContextUp);
        applications[at].assemble(&mut servlets, &mut filters);
    }
}
