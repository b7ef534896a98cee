//! What the names of a descriptor stand for.

ghost use Rattle.std.specs.Prelude.{◌≡◌, List, ℕ, Option, option_map, IfOk, IfSome};
ghost use Rattle.sv_servlet.specs.Filter.{Filters};
ghost use Rattle.sv_servlet.specs.Servlet.{Serves};
ghost use Rattle.sv_servlet.specs.declared.servlet.Phase.TheVariants.{New};
ghost use Rattle.sv_launch.specs.Objects.{Hears};

use crate::idle::Idle;
use crate::one_of::OneOf;
use std::alloc::{AllocError, Global};
use sv_servlet::{Answers, Filter, GenericFilter, GenericServlet, Listener, Servlet, Surrounds};
use sv_web::Web;

/// The servlets of an application, by their names.
pub trait ServletTable: Copy {
    type Servlet: Servlet;

    /// What the servlet of a name answers; none where the name stands for none.
    ghost servlets: { Self → List ℕ → Option Serves };

    /// A new servlet of a name.
    fn servlet(&self, alloc: Global, name: &str) -> Result<Option<Self::Servlet>, AllocError>
        ensures phase { IfOk result (λ found. IfSome found (λ servlet. Self.Servlet.servlet_phase servlet ≡ New)) }
        ensures meaning { IfOk result (λ found. option_map Self.Servlet.serves found ≡ servlets self.now name.now) };
}

/// The filters of an application, by their names.
pub trait FilterTable: Copy {
    type Filter: Filter;

    /// What the filter of a name does; none where the name stands for none.
    ghost filters: { Self → List ℕ → Option Filters };

    /// A new filter of a name.
    fn filter(&self, alloc: Global, name: &str) -> Result<Option<Self::Filter>, AllocError>
        ensures phase { IfOk result (λ found. IfSome found (λ filter. Self.Filter.filter_phase filter ≡ New)) }
        ensures meaning { IfOk result (λ found. option_map Self.Filter.filtering found ≡ filters self.now name.now) };
}

/// The listeners of an application, by their names.
pub trait ListenerTable: Copy {
    type Listener: Listener;

    /// What the listener of a name makes of an event; none where the name stands for none.
    ghost listeners: { Self → List ℕ → Option Hears };

    /// A new listener of a name.
    fn listener(&self, alloc: Global, name: &str) -> Result<Option<Self::Listener>, AllocError>
        ensures meaning { IfOk result (λ found. option_map Self.Listener.hears found ≡ listeners self.now name.now) };
}

/// A table without names.
#[derive(Clone, Copy)]
pub struct Empty;

impl ServletTable for Empty {
    ghost use Rattle.std.specs.Prelude.{None};

    type Servlet = GenericServlet<Web<Idle>>;

    ghost servlets = { λ _ _. None };

    fn servlet(&self, _alloc: Global, _name: &str) -> Result<Option<Self::Servlet>, AllocError> {
        Ok(None)
    }
}

impl FilterTable for Empty {
    ghost use Rattle.std.specs.Prelude.{None};

    type Filter = GenericFilter<Web<Idle>>;

    ghost filters = { λ _ _. None };

    fn filter(&self, _alloc: Global, _name: &str) -> Result<Option<Self::Filter>, AllocError> {
        Ok(None)
    }
}

impl ListenerTable for Empty {
    ghost use Rattle.std.specs.Prelude.{None};

    type Listener = Idle;

    ghost listeners = { λ _ _. None };

    fn listener(&self, _alloc: Global, _name: &str) -> Result<Option<Self::Listener>, AllocError> {
        Ok(None)
    }
}

/// A table with a name in front of those of another: each object of the name is a copy of this one.
#[derive(Clone, Copy)]
pub struct With<'a, T, R> {
    pub name: &'a str,
    pub object: T,
    pub rest: R,
}

impl<'a, T: Answers + Copy, R: ServletTable> ServletTable for With<'a, T, R> {
    ghost use Rattle.sv_launch.specs.Objects.{or_else};

    type Servlet = OneOf<GenericServlet<T>, R::Servlet>;

    ghost servlets = { λ table. or_else table.name.now (T.answers table.object) (R.servlets table.rest) };

    fn servlet(&self, alloc: Global, name: &str) -> Result<Option<Self::Servlet>, AllocError> {
        if name == self.name {
            return Ok(Some(OneOf::First(GenericServlet::new(self.object))));
        }
        match self.rest.servlet(alloc, name)? {
            Some(servlet) => Ok(Some(OneOf::Second(servlet))),
            None => Ok(None),
        }
    }
}

impl<'a, T: Surrounds + Copy, R: FilterTable> FilterTable for With<'a, T, R> {
    ghost use Rattle.sv_launch.specs.Objects.{or_else};

    type Filter = OneOf<GenericFilter<T>, R::Filter>;

    ghost filters = { λ table. or_else table.name.now (T.surrounds table.object) (R.filters table.rest) };

    fn filter(&self, alloc: Global, name: &str) -> Result<Option<Self::Filter>, AllocError> {
        if name == self.name {
            return Ok(Some(OneOf::First(GenericFilter::new(self.object))));
        }
        match self.rest.filter(alloc, name)? {
            Some(filter) => Ok(Some(OneOf::Second(filter))),
            None => Ok(None),
        }
    }
}

impl<'a, T: Listener + Copy, R: ListenerTable> ListenerTable for With<'a, T, R> {
    ghost use Rattle.sv_launch.specs.Objects.{or_else};

    type Listener = OneOf<T, R::Listener>;

    ghost listeners = { λ table. or_else table.name.now (T.hears table.object) (R.listeners table.rest) };

    fn listener(&self, alloc: Global, name: &str) -> Result<Option<Self::Listener>, AllocError> {
        if name == self.name {
            return Ok(Some(OneOf::First(self.object)));
        }
        match self.rest.listener(alloc, name)? {
            Some(listener) => Ok(Some(OneOf::Second(listener))),
            None => Ok(None),
        }
    }
}
