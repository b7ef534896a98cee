//! The lives of servlets and filters (Jakarta Servlet 6.0, sections "Servlet Life Cycle" and "Filter Lifecycle").

ghost use Rattle.std.specs.Prelude.{◌≡◌, All, if◌then◌else◌};
ghost use Rattle.sv_servlet.specs.Filter.{FilterKeeps};
ghost use Rattle.sv_servlet.specs.declared.servlet.Phase.TheVariants.{New};
ghost use Rattle.sv_dispatch.specs.Keeping.{ServletKeeps};
ghost use Rattle.sv_dispatch.specs.Rows.{rows};
ghost use Rattle.sv_container.specs.Application.{IsSoundApp, app_of, is_able, plan_of};
ghost use Rattle.sv_container.specs.Life.{AreNew, IsInitialised, IsLive, ready_count};
ghost use Rattle.sv_container.specs.Pairs.{Pairwise};

use crate::application::Application;
use sv_dispatch::Hosted;
use sv_servlet::{Filter, Servlet};

/// Initialises a servlet, and marks it where that succeeds.
fn init_servlet<S: Servlet>(hosted: &mut Hosted<S>)
    requires { S.servlet_phase hosted.old.object ≡ New }
    ensures { IsInitialised S.serves S.servlet_phase ServletKeeps hosted.old hosted.new }
{
    hosted.is_ready = hosted.object.init().is_ok();
}

/// Initialises servlets in order.
fn init_servlets<S: Servlet>(all: &mut Vec<Hosted<S>>)
    requires { AreNew S.servlet_phase all.old.items }
    ensures { Pairwise (IsInitialised S.serves S.servlet_phase ServletKeeps) all.old.items all.new.items }
{
    for at in 0..all.len() {
        init_servlet(&mut all[at]);
    }
}

/// Destroys a servlet that is ready; whether it was.
fn destroy_servlet<S: Servlet>(hosted: &mut Hosted<S>) -> usize
    requires { IsLive S.servlet_phase hosted.old }
    ensures { result ≡ (if hosted.old.is_ready then 1 else 0) }
{
    if !hosted.is_ready {
        return 0;
    }
    hosted.object.destroy();
    1
}

/// Destroys the servlets that are ready, the last first, and counts them.
pub fn destroy_servlets<S: Servlet>(all: &mut Vec<Hosted<S>>) -> usize
    requires { All (IsLive S.servlet_phase) all.old.items }
    ensures { result ≡ ready_count (rows S.serves S.servlet_phase all.old.items) }
{
    let mut count = 0;
    for at in (0..all.len()).rev() {
        count += destroy_servlet(&mut all[at]);
    }
    count
}

/// Initialises a filter, and marks it where that succeeds.
fn init_filter<F: Filter>(hosted: &mut Hosted<F>)
    requires { F.filter_phase hosted.old.object ≡ New }
    ensures { IsInitialised F.filtering F.filter_phase FilterKeeps hosted.old hosted.new }
{
    hosted.is_ready = hosted.object.init().is_ok();
}

/// Initialises filters in order.
fn init_filters<F: Filter>(all: &mut Vec<Hosted<F>>)
    requires { AreNew F.filter_phase all.old.items }
    ensures { Pairwise (IsInitialised F.filtering F.filter_phase FilterKeeps) all.old.items all.new.items }
{
    for at in 0..all.len() {
        init_filter(&mut all[at]);
    }
}

/// Destroys a filter that is ready; whether it was.
fn destroy_filter<F: Filter>(hosted: &mut Hosted<F>) -> usize
    requires { IsLive F.filter_phase hosted.old }
    ensures { result ≡ (if hosted.old.is_ready then 1 else 0) }
{
    if !hosted.is_ready {
        return 0;
    }
    hosted.object.destroy();
    1
}

/// Destroys the filters that are ready, the last first, and counts them.
pub fn destroy_filters<F: Filter>(all: &mut Vec<Hosted<F>>) -> usize
    requires { All (IsLive F.filter_phase) all.old.items }
    ensures { result ≡ ready_count (rows F.filtering F.filter_phase all.old.items) }
{
    let mut count = 0;
    for at in (0..all.len()).rev() {
        count += destroy_filter(&mut all[at]);
    }
    count
}

impl<S: Servlet, F: Filter> Application<S, F> {
    /// Initialises the filters, then the servlets. An application with a filter that fails is not in service.
    pub fn launch(&mut self)
        requires servlets { AreNew S.servlet_phase self.old.stage.servlets.items }
        requires filters { AreNew F.filter_phase self.old.stage.filters.items }
        ensures sound { IsSoundApp (app_of S.Servlet F.Filter self.new) }
        ensures plan { plan_of (app_of S.Servlet F.Filter self.new) ≡ plan_of (app_of S.Servlet F.Filter self.old) }
        ensures service { self.new.is_in_service ≡ is_able (app_of S.Servlet F.Filter self.new) }
    {
        init_filters(&mut self.stage.filters);
        init_servlets(&mut self.stage.servlets);
        self.is_in_service = self.can_serve();
    }
}
