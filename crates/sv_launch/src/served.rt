//! The files that contexts serve as they are, once they have been read.

ghost use Rattle.std.specs.Prelude.{◌≡◌, option_copied};
ghost use Rattle.sv_servlet.specs.declared.servlet.Phase.TheVariants.{New};
ghost use Rattle.sv_launch.specs.Served as spec;

use http_header::HeaderValue;
use std::alloc::Global;
use sv_servlet::{GenericServlet, Servlet};
use sv_web::{FileChoice, FileServlet, StaticFile, StaticFiles, Web};

/// What a file mapping of a context serves.
#[derive(Drop)]
pub struct ServedFiles {
    /// The number of the context.
    pub context: usize,
    /// The pattern of the mapping, which is the name of its servlet.
    pub path: String,
    pub choice: FileChoice,
    /// In the order of their names.
    pub files: Vec<StaticFile>,
    /// The value of Cache-Control that its answers have.
    pub cache: Option<HeaderValue>,
}

impl ServedFiles {
    /// A servlet that answers with them.
    pub fn servlet<'a>(&'a self, alloc: Global) -> GenericServlet<Web<FileServlet<'a>>>
        ensures phase { ⟦<GenericServlet<Web<FileServlet<'a>>> as Servlet>⟧.servlet_phase result ≡ New }
        ensures meaning { ⟦<GenericServlet<Web<FileServlet<'a>>> as Servlet>⟧.serves result ≡ spec.answers_of self.now }
    {
        let files = StaticFiles {
            choice: self.choice,
            files: self.files.as_slice(),
            cache: self.cache.as_ref(),
        };
        GenericServlet::new(Web::new(alloc, files.servlet()))
    }
}

fn is_at(context: usize, path: &str, served: &ServedFiles) -> bool
    ensures { result ≡ spec.is_at context path.now served.now }
{
    served.context == context && served.path.as_str() == path
}

/// The files of a path of a context.
pub fn served_at<'a>(all: &'a [ServedFiles], context: usize, path: &str) -> Option<&'a ServedFiles>
    ensures { option_copied result ≡ spec.served_at all.now context path.now }
{
    all.iter().find(|served| is_at(context, path, served))
}
