//! The secrets under which sessions are made.

ghost use Rattle.std.specs.Prelude.{◌≡◌, IfOk, IfErr};
ghost use Rattle.std.specs.Io.KnownBytes.{Consumes};
ghost use Rattle.sv_host.specs.Secrets.{secret_of, first_by, last_in, last_of, Draws};
ghost use Rattle.sv_host.specs.declared.fault.HostFault.TheVariants.{Secrets as SecretsFault};
ghost use Rattle.sv_host.specs.declared.fault.Stop.TheVariants.{Fault};

use crate::fault::{HostFault, Stop};
use std::fs::File;
use std::io::Read;
use sv_model::Secret;

/// Where a node's secrets come from.
#[derive(Drop)]
enum Source {
    /// 16 bytes at a time from a file, such as `/dev/urandom`.
    Read(File),
    /// Numbers, each one more than the last: for a cluster whose peers and clients can all be trusted.
    Counted { last: u64 },
}

/// A node's secrets: each is had by one step at most.
pub struct Secrets {
    source: Source,
}

/// By hand, so that the proof of a caller has one step for it.
impl Drop for Secrets {
    fn drop(self) {
        let Secrets { source: _ } = self;
    }
}

/// A secret that is counted: the number in 16 big-endian bytes.
pub fn secret_of(number: u64) -> Secret
    ensures { result ≡ secret_of number }
{
    let mut bytes = [0u8; 16];
    bytes[8..].copy_from_slice(&number.to_be_bytes());
    Secret(bytes)
}

/// The next 16 bytes.
fn read_secret<R: Read>(from: &mut R) -> Result<Secret, Stop>
    ensures read { IfOk result (λ secret. Consumes (R.remaining from.old) (R.remaining from.new) secret.0) }
    ensures fault { IfErr result (λ stop. stop ≡ Fault SecretsFault) }
{
    let mut bytes = [0u8; 16];
    match from.read_exact(&mut bytes) {
        Ok(()) => Ok(Secret(bytes)),
        Err(_) => Err(Stop::Fault(HostFault::Secrets)),
    }
}

impl Source {
    /// The next secret.
    fn draw(&mut self) -> Result<Secret, Stop>
        ensures { Draws (last_in self.old) result (last_in self.new) }
    {
        match self {
            Source::Read(file) => read_secret(file),
            Source::Counted { last } => {
                let Some(number) = last.checked_add(1) else {
                    return Err(Stop::Spent(*last));
                };
                *last = number;
                Ok(secret_of(number))
            }
        }
    }
}

impl Secrets {
    /// Those of a file at a path, or counted ones, of which the first is 1.
    pub fn open(machine: &HostRuntime, path: Option<&String>) -> Result<Secrets, HostFault>
        ensures { IfOk result (λ s. last_of s ≡ first_by path.entry) }
    {
        let source = match path {
            None => Source::Counted { last: 0 },
            Some(path) => match File::open(machine, path.as_str()) {
                Ok(file) => Source::Read(file),
                Err(_) => return Err(HostFault::Secrets),
            },
        };
        Ok(Secrets { source })
    }

    /// The next secret.
    pub fn next(&mut self) -> Result<Secret, Stop>
        ensures { Draws (last_of self.old) result (last_of self.new) }
    {
        self.source.draw()
    }
}
