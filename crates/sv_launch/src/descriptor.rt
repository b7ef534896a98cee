//! The descriptor that the program serves by.

ghost use Rattle.std.specs.Prelude.{◌≡◌, ◌≢◌, ℕ, List, IfErr, IfOk};
ghost use Rattle.sv_config.specs.Fault.{IsFaultOf};
ghost use Rattle.sv_config.specs.declared.fault.ConfigFault.{ConfigFault as FaultOfConfig};
ghost use Rattle.sv_launch.specs.Fault.{fault_in};
ghost use Rattle.sv_launch.specs.Started.{IsDescriptor};
ghost use Rattle.sv_launch.specs.declared.fault.Fault.TheVariants.{Memory};

use crate::fault::Fault;
use std::alloc::Global;
use std::fs;
use std::io::ErrorKind;
use sv_config::Deployment;

/// The word for the built-in descriptor.
const BUILT_IN_WORD: &str = "-";

/// The deployment that a descriptor says, or the descriptor's least fault.
pub fn deployment_in(alloc: Global, text: &str) -> Result<Deployment, Fault>
    ensures deployment { IfOk result (IsDescriptor text.now) }
    ensures fault { IfErr result (λ fault. fault ≢ Memory → (c : FaultOfConfig) × IsFaultOf text.now c × (fault ≡ fault_in c)) }
{
    Ok(Deployment::from_toml(alloc, text)?)
}

/// The text of a file.
fn read_file(rt: &HostRuntime, path: &str) -> Result<String, Fault> {
    match fs::read_to_string(rt, path) {
        Ok(text) => Ok(text),
        Err(refused) if refused.kind() == ErrorKind::OutOfMemory => Err(Fault::Memory),
        Err(_) => Err(Fault::Unreadable),
    }
}

/// The deployment that a CONFIG says: the built-in one where it is `-`, or else that of the file at this path.
pub fn read_config(
    rt: &HostRuntime,
    built_in: Option<&str>,
    config: &str,
) -> Result<Deployment, Fault>
    ensures read { IfOk result (λ deployment. (text : List ℕ) × IsDescriptor text deployment) }
{
    if config == BUILT_IN_WORD {
        return deployment_in(rt.alloc(), built_in.ok_or(Fault::Unreadable)?);
    }
    let text = read_file(rt, config)?;
    deployment_in(rt.alloc(), text.as_str())
}
