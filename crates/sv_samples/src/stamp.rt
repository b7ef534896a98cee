//! A filter that puts a mark round what a servlet writes.

ghost use Rattle.std.specs.Prelude.{◌≡◌, IfOk};
ghost use Rattle.sv_samples.specs.Stamp as spec;
ghost use Rattle.sv_servlet.specs.declared.servlet.Phase.TheVariants.{New};
ghost use Rattle.sv_samples.specs.Stamp.{stamp};
ghost use Rattle.sv_web.specs.Work.{surrounding};

use std::alloc::{AllocError, Global};
use sv_model::Text;
use sv_servlet::{Before, Call, Filter, GenericFilter, Reply, ReplyFault};
use sv_session::SessionEdit;
use sv_web::{HttpFilter, Refusal, Web};

/// Writes `<` and its mark before a servlet, and its mark and `>` after it.
///
/// The mark is what stands after the first `-` of the filter's name, or `s` where there is none. After a servlet what
/// no longer fits isn't written.
#[derive(Drop)]
pub struct Stamp {
    mark: Text,
}

/// The mark of a filter of this name.
fn mark_of(name: &str) -> &str
    ensures { result.now ≡ spec.mark_of name.now }
{
    match name.split_once('-') {
        Some((_, mark)) => mark,
        None => "s",
    }
}

impl Stamp {
    /// A filter of this name that has not been initialised.
    pub fn new(alloc: Global, name: &str) -> Result<GenericFilter<Web<Stamp>>, AllocError>
        ensures phase { IfOk result (λ f. ⟦<GenericFilter<Web<Stamp>> as Filter>⟧.filter_phase f ≡ New) }
        ensures meaning { IfOk result (λ f. ⟦<GenericFilter<Web<Stamp>> as Filter>⟧.filtering f ≡ surrounding (stamp (spec.mark_of name.now))) }
    {
        let mark = Text::from_str(alloc, mark_of(name))?;
        Ok(GenericFilter::new(Web::new(alloc, Stamp { mark })))
    }
}

impl HttpFilter for Stamp {
    ghost use Rattle.sv_samples.specs.Stamp.{stamp};

    ghost work = { λ s. stamp s.mark };

    fn before(
        &mut self,
        alloc: Global,
        _call: &Call<'_>,
        _edit: &mut SessionEdit,
        reply: &mut Reply,
    ) -> Result<Before, Refusal> {
        let mark = self.mark.as_str();
        let text = format!(in alloc; "<{mark}")?;
        reply.write(text.as_bytes())?;
        Ok(Before::Pass)
    }

    fn after(
        &mut self,
        alloc: Global,
        _call: &Call<'_>,
        _edit: &mut SessionEdit,
        reply: &mut Reply,
    ) -> Result<(), AllocError> {
        let mark = self.mark.as_str();
        let text = format!(in alloc; "{mark}>")?;
        match reply.write(text.as_bytes()) {
            Err(ReplyFault::Memory) => Err(AllocError),
            _ => Ok(()),
        }
    }
}
