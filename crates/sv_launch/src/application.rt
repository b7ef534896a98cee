//! An application: what its names stand for, and what it is started for.

ghost use Rattle.std.specs.Prelude.{◌≡◌, ℕ, List, Option, IfOk, None, Some};
ghost use Rattle.sv_container.specs.Life.{AreNamedNew};
ghost use Rattle.sv_container.specs.Serving.{deployed};
ghost use Rattle.sv_model.specs.Engine.{EngineMeaning};
ghost use Rattle.sv_launch.specs.Launched.{AreDeclared, IsLaunched, IsMeant};
ghost use Rattle.sv_launch.specs.Started.{HasStreamed, IsStarted};
ghost use Rattle.sv_launch.specs.Served.{files_or};
ghost use Rattle.sv_web.specs.Work.{serving, surrounding};

use crate::fault::Fault;
use crate::kind::{FilesOr, FiltersOf, ListenersOf, ServletsOf};
use crate::objects::objects_of;
use crate::purpose::Purpose;
use crate::served::ServedFiles;
use crate::stream::once;
use crate::table::{Empty, FilterTable, ListenerTable, ServletTable, With};
use std::alloc::Global;
use std::io::{Read, Write};
use sv_config::{Context, Deployment};
use sv_container::{Container, Named};
use sv_model::Engine;
use sv_servlet::{Answers, Listener, Servlet, Surrounds};
use sv_web::{HttpFilter, HttpServlet, Web};

/// What a program of nodes serves by.
pub trait Applications {
    ghost use Rattle.sv_config.specs.declared.deployment.Deployment.{Deployment};
    ghost use Rattle.sv_launch.specs.declared.served.ServedFiles.{ServedFiles};

    /// What an engine means that is started for a deployment, with the files that it serves.
    ghost means: { Self → Deployment → List ServedFiles → EngineMeaning → Type 0 };

    /// How such an engine serves a stream at a moment, from the bytes to come and those written before to those after it.
    ghost streams: { Self → Deployment → List ServedFiles → ℕ → (to_come written left writes : Option (List ℕ)) → Type 0 };

    /// The descriptor that the program has built in, where it has one.
    fn built_in(&self) -> Option<&str>;

    /// Starts the applications of a deployment, with the files that it serves, for a purpose, and serves by them to the end.
    fn start<P: Purpose>(
        &self,
        alloc: Global,
        deployment: Deployment,
        files: &[ServedFiles],
        purpose: P,
    ) -> Result<(), Fault>
        ensures started { IfOk result (λ _. IsStarted (means self.now deployment files.now) (λ m heard r. P.serves m heard purpose r) result) };

    /// Starts them, and serves a stream of requests to its end, all of them at `now` in whole seconds since 1970.
    fn stream<R: Read, W: Write>(
        &self,
        alloc: Global,
        deployment: Deployment,
        files: &[ServedFiles],
        now: u64,
        reader: &mut R,
        writer: &mut W,
    ) -> Result<(), Fault>
        ensures streamed { IfOk result (λ _. streams self.now deployment files.now now (R.remaining reader.old) (W.contents writer.old)
            (R.remaining reader.new) (W.contents writer.new)) };
}

/// An application: its servlets, its filters and its listeners, each by the name that a descriptor gives it.
///
/// It begins with no name, and each call adds one. A name that is there already is the new object's from then on.
#[derive(Clone, Copy)]
pub struct Application<'a, S, F, L> {
    pub alloc: Global,
    /// The descriptor that is built in, where there is one.
    pub built_in: Option<&'a str>,
    pub servlets: S,
    pub filters: F,
    pub listeners: L,
}

impl<'a> Application<'a, Empty, Empty, Empty> {
    /// An application without names.
    pub fn new(alloc: Global) -> Application<'a, Empty, Empty, Empty>
        ensures { result.built_in ≡ None }
    {
        Application {
            alloc,
            built_in: None,
            servlets: Empty,
            filters: Empty,
            listeners: Empty,
        }
    }
}

impl<'a, S, F, L> Application<'a, S, F, L> {
    /// The application with a descriptor built in.
    pub fn descriptor(self, text: &'a str) -> Application<'a, S, F, L>
        ensures built_in { result.built_in ≡ Some text.entry }
        ensures servlets { result.servlets ≡ self.entry.servlets }
        ensures filters { result.filters ≡ self.entry.filters }
        ensures listeners { result.listeners ≡ self.entry.listeners }
    {
        Application {
            built_in: Some(text),
            ..self
        }
    }

    /// The application with a servlet.
    pub fn servlet<T: HttpServlet + Copy>(
        self,
        name: &'a str,
        servlet: T,
    ) -> Application<'a, With<'a, Web<T>, S>, F, L>
        ensures built_in { result.built_in ≡ self.entry.built_in }
        ensures named { result.servlets.name.now ≡ name.now }
        ensures servlet { ⟦<Web<T> as Answers>⟧.answers result.servlets.object ≡ serving (T.work servlet) }
        ensures others { result.servlets.rest ≡ self.entry.servlets }
        ensures filters { result.filters ≡ self.entry.filters }
        ensures listeners { result.listeners ≡ self.entry.listeners }
    {
        let alloc = self.alloc;
        self.answering(name, Web::new(alloc, servlet))
    }

    /// The application with a servlet of whatever answers its requests.
    pub fn answering<T: Answers + Copy>(
        self,
        name: &'a str,
        object: T,
    ) -> Application<'a, With<'a, T, S>, F, L>
        ensures built_in { result.built_in ≡ self.entry.built_in }
        ensures named { result.servlets.name.now ≡ name.now }
        ensures object { result.servlets.object ≡ object }
        ensures others { result.servlets.rest ≡ self.entry.servlets }
        ensures filters { result.filters ≡ self.entry.filters }
        ensures listeners { result.listeners ≡ self.entry.listeners }
    {
        Application {
            alloc: self.alloc,
            built_in: self.built_in,
            servlets: With {
                name,
                object,
                rest: self.servlets,
            },
            filters: self.filters,
            listeners: self.listeners,
        }
    }

    /// The application with a filter.
    pub fn filter<T: HttpFilter + Copy>(
        self,
        name: &'a str,
        filter: T,
    ) -> Application<'a, S, With<'a, Web<T>, F>, L>
        ensures built_in { result.built_in ≡ self.entry.built_in }
        ensures servlets { result.servlets ≡ self.entry.servlets }
        ensures named { result.filters.name.now ≡ name.now }
        ensures filter { ⟦<Web<T> as Surrounds>⟧.surrounds result.filters.object ≡ surrounding (T.work filter) }
        ensures others { result.filters.rest ≡ self.entry.filters }
        ensures listeners { result.listeners ≡ self.entry.listeners }
    {
        let alloc = self.alloc;
        self.surrounding(name, Web::new(alloc, filter))
    }

    /// The application with a filter of whatever is done before and after a servlet.
    pub fn surrounding<T: Surrounds + Copy>(
        self,
        name: &'a str,
        object: T,
    ) -> Application<'a, S, With<'a, T, F>, L>
        ensures built_in { result.built_in ≡ self.entry.built_in }
        ensures servlets { result.servlets ≡ self.entry.servlets }
        ensures named { result.filters.name.now ≡ name.now }
        ensures object { result.filters.object ≡ object }
        ensures others { result.filters.rest ≡ self.entry.filters }
        ensures listeners { result.listeners ≡ self.entry.listeners }
    {
        Application {
            alloc: self.alloc,
            built_in: self.built_in,
            servlets: self.servlets,
            filters: With {
                name,
                object,
                rest: self.filters,
            },
            listeners: self.listeners,
        }
    }

    /// The application with a listener.
    pub fn listener<T: Listener + Copy>(
        self,
        name: &'a str,
        object: T,
    ) -> Application<'a, S, F, With<'a, T, L>>
        ensures built_in { result.built_in ≡ self.entry.built_in }
        ensures servlets { result.servlets ≡ self.entry.servlets }
        ensures filters { result.filters ≡ self.entry.filters }
        ensures named { result.listeners.name.now ≡ name.now }
        ensures object { result.listeners.object ≡ object }
        ensures others { result.listeners.rest ≡ self.entry.listeners }
    {
        Application {
            alloc: self.alloc,
            built_in: self.built_in,
            servlets: self.servlets,
            filters: self.filters,
            listeners: With {
                name,
                object,
                rest: self.listeners,
            },
        }
    }
}

/// The objects that contexts declare, each as it was made.
#[derive(Drop)]
struct Objects<S, F, L> {
    servlets: Vec<Named<S>>,
    filters: Vec<Named<F>>,
    listeners: Vec<Named<L>>,
}

impl<'a, S: ServletTable, F: FilterTable, L: ListenerTable> Application<'a, S, F, L> {
    /// The objects that contexts declare, in order, and those that serve their files.
    fn objects<'f>(
        &self,
        alloc: Global,
        contexts: &[Context],
        files: &'f [ServedFiles],
    ) -> Result<Objects<FilesOr<'f, S::Servlet>, F::Filter, L::Listener>, Fault>
        ensures servlets { IfOk result (λ objects. AreNamedNew ⟦<FilesOr<'f, S::Servlet> as Servlet>⟧.servlet_phase objects.servlets.items) }
        ensures filters { IfOk result (λ objects. AreNamedNew F.Filter.filter_phase objects.filters.items) }
        ensures servlets_are { IfOk result (λ objects. AreDeclared ⟦<FilesOr<'f, S::Servlet> as Servlet>⟧.serves
            (λ context name. files_or files.now context name (S.servlets self.now.servlets name)) (λ c. c.servlets) contexts.now objects.servlets.items) }
        ensures filters_are { IfOk result (λ objects. AreDeclared F.Filter.filtering (λ context name. F.filters self.now.filters name)
            (λ c. c.filters) contexts.now objects.filters.items) }
        ensures listeners_are { IfOk result (λ objects. AreDeclared L.Listener.hears (λ context name. L.listeners self.now.listeners name)
            (λ c. c.listeners) contexts.now objects.listeners.items) }
    {
        Ok(Objects {
            servlets: objects_of(
                alloc,
                &ServletsOf {
                    table: self.servlets,
                    files,
                },
                contexts,
            )?,
            filters: objects_of(alloc, &FiltersOf(self.filters), contexts)?,
            listeners: objects_of(alloc, &ListenersOf(self.listeners), contexts)?,
        })
    }

    /// The container of a deployment, with the objects that it declares.
    fn container<'f>(
        &self,
        alloc: Global,
        deployment: Deployment,
        files: &'f [ServedFiles],
    ) -> Result<Container<FilesOr<'f, S::Servlet>, F::Filter, L::Listener>, Fault>
        ensures valid { IfOk result (λ container. ⟦<Container<FilesOr<'f, S::Servlet>, F::Filter, L::Listener> as Engine>⟧.valid container) }
        ensures launched { IfOk result (λ container. IsLaunched ⟦<FilesOr<'f, S::Servlet> as Servlet>⟧.serves F.Filter.filtering L.Listener.hears
            (λ context name. files_or files.now context name (S.servlets self.now.servlets name)) (λ context name. F.filters self.now.filters name)
            (λ context name. L.listeners self.now.listeners name) deployment.contexts.items
            (deployed ⟦<FilesOr<'f, S::Servlet> as Servlet>⟧ F.Filter.Filter L.Listener.hears container)) }
    {
        let Objects {
            servlets,
            filters,
            listeners,
        } = self.objects(alloc, deployment.contexts.as_slice(), files)?;
        match Container::start(alloc, deployment, servlets, filters, listeners) {
            Ok(container) => Ok(container),
            Err(not_started) => Err(not_started.fault.into()),
        }
    }
}

impl<'a, S: ServletTable, F: FilterTable, L: ListenerTable> Applications
    for Application<'a, S, F, L> {
    ghost means = { λ app deployment files. IsMeant ⟦<FilesOr<'static, S::Servlet> as Servlet>⟧.serves F.Filter.filtering L.Listener.hears
        (λ context name. files_or files context name (S.servlets app.servlets name)) (λ context name. F.filters app.filters name)
        (λ context name. L.listeners app.listeners name) deployment.contexts.items };

    ghost streams = { λ app deployment files. HasStreamed
        ⟦<Container<FilesOr<'static, S::Servlet>, F::Filter, L::Listener> as Engine>⟧.meaning
        ⟦<Container<FilesOr<'static, S::Servlet>, F::Filter, L::Listener> as Engine>⟧.heard
        (IsMeant ⟦<FilesOr<'static, S::Servlet> as Servlet>⟧.serves F.Filter.filtering L.Listener.hears
        (λ context name. files_or files context name (S.servlets app.servlets name)) (λ context name. F.filters app.filters name)
        (λ context name. L.listeners app.listeners name) deployment.contexts.items) };

    fn built_in(&self) -> Option<&str> {
        self.built_in
    }

    fn start<P: Purpose>(
        &self,
        alloc: Global,
        deployment: Deployment,
        files: &[ServedFiles],
        purpose: P,
    ) -> Result<(), Fault> {
        let container = self.container(alloc, deployment, files)?;
        purpose.serve(alloc, container)
    }

    fn stream<R: Read, W: Write>(
        &self,
        alloc: Global,
        deployment: Deployment,
        files: &[ServedFiles],
        now: u64,
        reader: &mut R,
        writer: &mut W,
    ) -> Result<(), Fault> {
        let container = self.container(alloc, deployment, files)?;
        once(alloc, container, now, reader, writer)?;
        Ok(())
    }
}
