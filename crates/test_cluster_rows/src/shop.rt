//! The applications that nodes serve by: the samples, as the program `node` has them where no descriptor is given; with sessions that
//! expire after a minute; with a servlet more, which changes the id of a session; or with that, and sessions that remember two answers.

ghost use Rattle.std.specs.Prelude.{IfOk};
ghost use Rattle.sv_container.specs.Life.{AreNamedNew};

use crate::fault::RowFault;
use std::alloc::{AllocError, Global};
use sv_config::Deployment;
use sv_container::{Container, Named};
use sv_model::Engine;
use sv_samples::{BUILT_IN, Gate, Sample, Tally};
use sv_servlet::{GenericFilter, GenericServlet, Servlet};
use sv_web::Web;

/// A servlet of the samples.
type Served = GenericServlet<Web<Sample>>;

/// The applications, started.
pub type Shop = Container<Served, GenericFilter<Web<Gate>>, Tally>;

/// How the built-in descriptor begins; its tables follow.
const HEAD: &str = r#"[[context]]
path = "/shop"
"#;

const A_MINUTE: &str = "interval = 60\n";

const ONCE: &str = "once = { answers = 2, parameter = \"once\" }\n";

const RENEWING: &str = r#"
[[context.servlet]]
name = "renew"
patterns = ["/renew"]
"#;

/// The descriptor of a name.
fn descriptor(alloc: Global, name: &str) -> Result<String, RowFault> {
    let Some(tables) = BUILT_IN.strip_prefix(HEAD) else {
        return Err(RowFault::Start);
    };
    match name {
        "built-in" => Ok(String::from_str(alloc, BUILT_IN)?),
        "of-a-minute" => Ok(format!(in alloc; "{HEAD}{A_MINUTE}{tables}")?),
        "renewing" => Ok(format!(in alloc; "{BUILT_IN}{RENEWING}")?),
        "once" => Ok(format!(in alloc; "{HEAD}{ONCE}{tables}{RENEWING}")?),
        _ => Err(RowFault::Word),
    }
}

/// The servlets of these names.
fn servlets(alloc: Global, names: &[String]) -> Result<Vec<Named<Served>>, RowFault>
    ensures { IfOk result (λ all. AreNamedNew ⟦<Served as Servlet>⟧.servlet_phase all.items) }
{
    let mut all = Vec::new(alloc);
    for name in names {
        let Some(sample) = Sample::named(name.as_str()) else {
            return Err(RowFault::Start);
        };
        let name = String::from_str(alloc, name.as_str())?;
        all.push(Named {
            context: 0,
            name,
            object: GenericServlet::new(Web::new(alloc, sample)),
        })?;
    }
    Ok(all)
}

/// The listener.
fn listeners(alloc: Global) -> Result<Vec<Named<Tally>>, AllocError> {
    let mut all = Vec::new(alloc);
    all.push(Named {
        context: 0,
        name: String::from_str(alloc, "tally")?,
        object: Tally::new(),
    })?;
    Ok(all)
}

/// The applications of a deployment, started.
fn started(alloc: Global, deployment: Deployment) -> Result<Shop, RowFault>
    ensures { IfOk result (λ c. ⟦<Shop as Engine>⟧.valid c) }
{
    let Some(context) = deployment.contexts.first() else {
        return Err(RowFault::Start);
    };
    let servlets = servlets(alloc, context.servlets.as_slice())?;
    let listeners = listeners(alloc)?;
    match Container::start(alloc, deployment, servlets, Vec::new(alloc), listeners) {
        Ok(shop) => Ok(shop),
        Err(_) => Err(RowFault::Start),
    }
}

/// The deployment of a name.
fn deployment(alloc: Global, name: &str) -> Result<Deployment, RowFault> {
    let text = descriptor(alloc, name)?;
    Ok(Deployment::from_toml(alloc, text.as_str())?)
}

/// An engine that is started by a name.
pub trait ByName: Engine {
    fn by_name(alloc: Global, name: &str) -> Result<Self, RowFault>
        ensures { IfOk result (λ e. Self.valid e) };
}

impl ByName for Shop {
    fn by_name(alloc: Global, name: &str) -> Result<Self, RowFault> {
        shop(alloc, name)
    }
}

/// The applications of a name, started.
pub fn shop(alloc: Global, name: &str) -> Result<Shop, RowFault>
    ensures { IfOk result (λ c. ⟦<Shop as Engine>⟧.valid c) }
{
    started(alloc, deployment(alloc, name)?)
}
