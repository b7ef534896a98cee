//! A container, from its start to its shutdown.

ghost use Rattle.std.specs.Prelude.{◌≡◌, ◌-◌, ◌^◌, IfOk, IfErr, map, min};
ghost use Rattle.std.specs.List.Sorted.{IsPermutation};
ghost use Rattle.sv_container.specs.Deployment.{IsDeployed, path_of};
ghost use Rattle.sv_container.specs.Life.{AreAble, AreNamedNew, ready_filters, ready_servlets};
ghost use Rattle.sv_container.specs.Serving.{IsSound, deployed};
ghost use Rattle.sv_container.specs.Starting.{IsFaultFor, filter_labels, listener_labels, servlet_labels};

use crate::application::Application;
use crate::arrange::arrange;
use crate::assemble::assemble_all;
use crate::life::{destroy_filters, destroy_servlets};
use crate::named::{Named, NotStarted, StartFault};
use crate::prepare::prepare;
use crate::tell::announce;
use std::alloc::Global;
use sv_config::Deployment;
use sv_model::Event;
use sv_servlet::{Filter, Listener, Servlet};

/// The web applications of a deployment, in service.
///
/// It keeps no sessions itself. One that is dropped without [`Container::shutdown`] drops its objects, and destroys none.
#[derive(Drop)]
pub struct Container<S, F, L> {
    pub(crate) paths: Vec<String>,
    pub(crate) applications: Vec<Application<S, F>>,
    pub(crate) listeners: Vec<Named<L>>,
    pub(crate) alloc: Global,
}

/// How many objects were destroyed.
#[derive(Clone, Copy, Debug, PartialEq, Eq)]
pub struct Stopped {
    pub servlets: usize,
    pub filters: usize,
}

impl<S: Servlet, F: Filter, L: Listener> Container<S, F, L> {
    /// Starts the applications of a deployment, with the objects that it names.
    ///
    /// Each object is handed in as it was made. On each fault all are handed back, and none has been called.
    pub fn start(
        alloc: Global,
        deployment: Deployment,
        servlets: Vec<Named<S>>,
        filters: Vec<Named<F>>,
        listeners: Vec<Named<L>>,
    ) -> Result<Container<S, F, L>, NotStarted<S, F, L>>
        requires servlets { AreNamedNew S.servlet_phase servlets.items }
        requires filters { AreNamedNew F.filter_phase filters.items }
        ensures sound { IfOk result (λ c. IsSound (deployed S.Servlet F.Filter L.hears c)) }
        ensures service { IfOk result (λ c. AreAble (deployed S.Servlet F.Filter L.hears c).apps) }
        ensures paths { IfOk result (λ c. (deployed S.Servlet F.Filter L.hears c).paths ≡ map path_of deployment.contexts.items) }
        ensures deployed { IfOk result (λ c. IsDeployed S.serves F.filtering deployment.contexts.items servlets.items filters.items listeners.items L.hears
            (deployed S.Servlet F.Filter L.hears c).apps
            (deployed S.Servlet F.Filter L.hears c).ears) }
        ensures fault { IfErr result (λ e. IsFaultFor e.fault (servlet_labels deployment.contexts.items servlets.items)
            (filter_labels deployment.contexts.items filters.items) (listener_labels deployment.contexts.items listeners.items)) }
        ensures servlets_back { IfErr result (λ e. IsPermutation servlets.items e.servlets.items) }
        ensures filters_back { IfErr result (λ e. IsPermutation filters.items e.filters.items) }
        ensures listeners_back { IfErr result (λ e. IsPermutation listeners.items e.listeners.items) }
    {
        let mut servlets = servlets;
        let mut filters = filters;
        let mut listeners = listeners;
        let arranged = arrange(
            deployment.contexts.as_slice(),
            &mut servlets,
            &mut filters,
            &mut listeners,
        );
        if let Err(fault) = arranged {
            return Err(NotStarted {
                fault,
                servlets,
                filters,
                listeners,
            });
        }
        let Ok(prepared) = prepare(alloc, deployment.contexts) else {
            return Err(NotStarted {
                fault: StartFault::Memory,
                servlets,
                filters,
                listeners,
            });
        };
        let mut applications = prepared.applications;
        assemble_all(&mut applications, servlets, filters, &mut listeners);
        Ok(Container {
            paths: prepared.paths,
            applications,
            listeners,
            alloc,
        })
    }

    /// Takes the applications out of service, the last first: of each the servlets, then the filters that are ready are
    /// destroyed, the last first, then its listeners are told that it goes down. All objects are dropped at the end.
    pub fn shutdown(self) -> Stopped
        requires { IsSound (deployed S.Servlet F.Filter L.hears self) }
        ensures servlets { result.servlets ≡ min (ready_servlets (deployed S.Servlet F.Filter L.hears self).apps) (2 ^ 64 - 1) }
        ensures filters { result.filters ≡ min (ready_filters (deployed S.Servlet F.Filter L.hears self).apps) (2 ^ 64 - 1) }
    {
        let Container {
            paths: _,
            applications,
            listeners,
            alloc: _,
        } = self;
        let mut applications = applications;
        let mut listeners = listeners;
        let mut servlets = 0usize;
        let mut filters = 0usize;
        for at in (0..applications.len()).rev() {
            servlets = servlets.saturating_add(destroy_servlets(
                &mut applications[at].stage.servlets,
            ));
            filters = filters.saturating_add(destroy_filters(&mut applications[at].stage.filters));
            announce(&mut listeners, applications[at].number, Event::ContextDown);
        }
        Stopped { servlets, filters }
    }
}
