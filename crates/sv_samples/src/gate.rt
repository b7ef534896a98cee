//! A filter that lets a request through where it has the key.

ghost use Rattle.std.specs.Prelude.{◌≡◌, IfOk};
ghost use Rattle.sv_samples.specs.Gate as spec;
ghost use Rattle.sv_servlet.specs.declared.servlet.Phase.TheVariants.{New};
ghost use Rattle.sv_samples.specs.Gate.{gate};
ghost use Rattle.sv_web.specs.Work.{surrounding};

use std::alloc::{AllocError, Global};
use sv_model::Text;
use sv_servlet::{Before, Call, Filter, GenericFilter, Reply};
use sv_session::SessionEdit;
use sv_web::{HttpFilter, Refusal, Web, parameter};

/// Lets a request through whose first parameter `key` is `open`, and sends the error 403 for any other.
#[derive(Drop)]
pub struct Gate;

fn has_key(call: &Call<'_>) -> bool
    ensures { result ≡ spec.has_key call.now }
{
    match parameter(call.params, "key") {
        Some(key) => key == "open",
        None => false,
    }
}

fn admit(alloc: Global, call: &Call<'_>) -> Result<Before, AllocError>
    ensures { IfOk result (λ before. before ≡ spec.admitted call.now) }
{
    if has_key(call) {
        return Ok(Before::Pass);
    }
    let text = Text::from_str(alloc, "closed")?;
    Ok(Before::SendError { code: 403, text })
}

impl Gate {
    /// A filter that has not been initialised.
    pub fn new(alloc: Global) -> GenericFilter<Web<Gate>>
        ensures phase { ⟦<GenericFilter<Web<Gate>> as Filter>⟧.filter_phase result ≡ New }
        ensures meaning { ⟦<GenericFilter<Web<Gate>> as Filter>⟧.filtering result ≡ surrounding gate }
    {
        GenericFilter::new(Web::new(alloc, Gate))
    }
}

impl HttpFilter for Gate {
    ghost use Rattle.sv_samples.specs.Gate.{gate};

    ghost work = { λ _. gate };

    fn before(
        &mut self,
        alloc: Global,
        call: &Call<'_>,
        _edit: &mut SessionEdit,
        _reply: &mut Reply,
    ) -> Result<Before, Refusal> {
        Ok(admit(alloc, call)?)
    }

    fn after(
        &mut self,
        _alloc: Global,
        _call: &Call<'_>,
        _edit: &mut SessionEdit,
        _reply: &mut Reply,
    ) -> Result<(), AllocError> {
        Ok(())
    }
}
