//! The three kinds of objects that a descriptor names.

ghost use Rattle.std.specs.Prelude.{◌≡◌, List, ℕ, Option, map, option_map, string_bytes, IfOk, IfSome};
ghost use Rattle.sv_config.specs.Values.{ContextData, context_data};

use crate::one_of::OneOf;
use crate::served::{ServedFiles, served_at};
use crate::table::{FilterTable, ListenerTable, ServletTable};
use std::alloc::{AllocError, Global};
use sv_config::Context;
use sv_servlet::{GenericServlet, Servlet};
use sv_web::{FileServlet, Web};

/// The objects of one kind that names stand for.
pub trait NamedObjects {
    type Object: Drop;

    /// What the meanings of such objects are.
    ghost Means: { Type 0 };

    /// What the object of a name means in the context of a number; none where the name stands for none.
    ghost named: { Self → ℕ → List ℕ → Option Means };

    /// What an object means.
    ghost meant: { Self.Object → Means };

    /// An object is as it was made.
    ghost is_new: { Self.Object → Type 0 };

    ghost names_in: { ContextData → List (List ℕ) };

    /// A new object of a name in the context of a number.
    fn object(
        &self,
        alloc: Global,
        context: usize,
        name: &str,
    ) -> Result<Option<Self::Object>, AllocError>
        ensures new { IfOk result (λ found. IfSome found is_new) }
        ensures meaning { IfOk result (λ found. option_map meant found ≡ named self.now context name.now) };

    /// The names that a context declares for it, in order.
    fn names(context: &Context) -> &[String]
        ensures { map string_bytes result.now ≡ names_in (context_data context.now) };
}

/// The servlets of a table, and those that serve files.
#[derive(Clone, Copy)]
pub struct ServletsOf<'f, T> {
    pub table: T,
    pub files: &'f [ServedFiles],
}

/// A servlet of files, or one of another type.
pub type FilesOr<'f, S> = OneOf<GenericServlet<Web<FileServlet<'f>>>, S>;

impl<'f, T: ServletTable> NamedObjects for ServletsOf<'f, T> {
    ghost use Rattle.std.specs.Prelude.{◌≡◌};
    ghost use Rattle.sv_launch.specs.Served.{files_or};
    ghost use Rattle.sv_servlet.specs.Servlet.{Serves};
    ghost use Rattle.sv_servlet.specs.declared.servlet.Phase.TheVariants.{New};

    type Object = FilesOr<'f, T::Servlet>;

    ghost Means = { Serves };

    ghost named = { λ kind context name. files_or kind.files.now context name (T.servlets kind.table name) };

    ghost meant = { ⟦<FilesOr<'f, T::Servlet> as Servlet>⟧.serves };

    ghost is_new = { λ servlet. ⟦<FilesOr<'f, T::Servlet> as Servlet>⟧.servlet_phase servlet ≡ New };

    ghost names_in = { λ c. c.servlets };

    fn object(
        &self,
        alloc: Global,
        context: usize,
        name: &str,
    ) -> Result<Option<FilesOr<'f, T::Servlet>>, AllocError> {
        if let Some(served) = served_at(self.files, context, name) {
            return Ok(Some(OneOf::First(served.servlet(alloc))));
        }
        match self.table.servlet(alloc, name)? {
            Some(servlet) => Ok(Some(OneOf::Second(servlet))),
            None => Ok(None),
        }
    }

    fn names(context: &Context) -> &[String]
        ensures { map string_bytes result.now ≡ (context_data context.now).servlets }
    {
        context.servlets.as_slice()
    }
}

/// The filters of a table.
#[derive(Clone, Copy)]
pub struct FiltersOf<T>(pub T);

impl<T: FilterTable> NamedObjects for FiltersOf<T> {
    ghost use Rattle.std.specs.Prelude.{◌≡◌};
    ghost use Rattle.sv_servlet.specs.Filter.{Filters};
    ghost use Rattle.sv_servlet.specs.declared.servlet.Phase.TheVariants.{New};

    type Object = T::Filter;

    ghost Means = { Filters };

    ghost named = { λ kind _ name. T.filters kind.0 name };

    ghost meant = { T.Filter.filtering };

    ghost is_new = { λ filter. T.Filter.filter_phase filter ≡ New };

    ghost names_in = { λ c. c.filters };

    fn object(
        &self,
        alloc: Global,
        _context: usize,
        name: &str,
    ) -> Result<Option<T::Filter>, AllocError> {
        self.0.filter(alloc, name)
    }

    fn names(context: &Context) -> &[String] {
        context.filters.as_slice()
    }
}

/// The listeners of a table.
#[derive(Clone, Copy)]
pub struct ListenersOf<T>(pub T);

impl<T: ListenerTable> NamedObjects for ListenersOf<T> {
    ghost use Rattle.sv_launch.specs.Objects.{Hears};

    type Object = T::Listener;

    ghost Means = { Hears };

    ghost named = { λ kind _ name. T.listeners kind.0 name };

    ghost meant = { T.Listener.hears };

    ghost is_new = { λ _. Unit {0} };

    ghost names_in = { λ c. c.listeners };

    fn object(
        &self,
        alloc: Global,
        _context: usize,
        name: &str,
    ) -> Result<Option<T::Listener>, AllocError> {
        self.0.listener(alloc, name)
    }

    fn names(context: &Context) -> &[String] {
        context.listeners.as_slice()
    }
}
