//! The samples that a descriptor can name.

ghost use Rattle.std.specs.Prelude.{◌≡◌};
ghost use Rattle.sv_showcase.specs.Names as spec;

use std::alloc::{AllocError, Global};
use sv_launch::{Application, FilterTable, ListenerTable, OneOf, ServletTable};
use sv_samples::{BUILT_IN, Gate, Sample, Stamp, Tally};
use sv_servlet::{GenericFilter, GenericServlet};
use sv_web::Web;

/// The part of a name before its first `-`, or all of it where there is none.
fn word_of(name: &str) -> &str
    ensures { result.now ≡ spec.word_of name.now }
{
    match name.split_once('-') {
        Some((word, _)) => word,
        None => name,
    }
}

/// The tables of the samples' names.
#[derive(Clone, Copy, Debug)]
pub struct Samples;

impl ServletTable for Samples {
    ghost use Rattle.sv_showcase.specs.Names.{servlets};

    type Servlet = GenericServlet<Web<Sample>>;

    ghost servlets = { λ _. servlets };

    fn servlet(&self, alloc: Global, name: &str) -> Result<Option<Self::Servlet>, AllocError> {
        match Sample::named(word_of(name)) {
            Some(sample) => Ok(Some(GenericServlet::new(Web::new(alloc, sample)))),
            None => Ok(None),
        }
    }
}

impl FilterTable for Samples {
    ghost use Rattle.sv_showcase.specs.Names.{filters};

    type Filter = OneOf<GenericFilter<Web<Stamp>>, GenericFilter<Web<Gate>>>;

    ghost filters = { λ _. filters };

    fn filter(&self, alloc: Global, name: &str) -> Result<Option<Self::Filter>, AllocError> {
        match word_of(name) {
            "stamp" => Ok(Some(OneOf::First(Stamp::new(alloc, name)?))),
            "gate" => Ok(Some(OneOf::Second(Gate::new(alloc)))),
            _ => Ok(None),
        }
    }
}

impl ListenerTable for Samples {
    ghost use Rattle.sv_showcase.specs.Names.{listeners};

    type Listener = Tally;

    ghost listeners = { λ _. listeners };

    fn listener(&self, _alloc: Global, name: &str) -> Result<Option<Tally>, AllocError> {
        match word_of(name) {
            "tally" => Ok(Some(Tally::new())),
            _ => Ok(None),
        }
    }
}

/// The application of the samples.
pub fn showcase(alloc: Global) -> Application<'static, Samples, Samples, Samples> {
    Application {
        alloc,
        built_in: Some(BUILT_IN),
        servlets: Samples,
        filters: Samples,
        listeners: Samples,
    }
}
