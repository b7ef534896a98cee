//! Serves one stream of requests on a node that stands alone.

ghost use Rattle.std.specs.Prelude.{◌≡◌, false};
ghost use Rattle.sv_solo.specs.Serve.{sight};
ghost use Rattle.sv_solo.specs.Solo.{solo_steps};
ghost use Rattle.sv_launch.specs.Once.{ending, calls_of, HasServed, IsOneHistory};

use std::alloc::Global;
use std::io::{Read, Write};
use sv_connection::{Connection, Outcome};
use sv_host::secret_of;
use sv_model::{Engine, Moment};
use sv_solo::{Solo, serve_next};
use thiserror::Error;

/// Why a stream was not served to its end.
#[derive(Clone, Copy, Debug, PartialEq, Eq, Error)]
pub enum OnceFault {
    #[error("the input can't be read")]
    Input,
    #[error("the output can't be written")]
    Output,
}

/// What the outcome of a call makes of the whole stream; none where another request is taken.
fn ending(outcome: Outcome) -> Option<Result<(), OnceFault>>
    ensures { result ≡ ending outcome }
{
    match outcome {
        Outcome::Answered => None,
        // A node that stands alone answers each request in its step, and parks none.
        Outcome::Parked { .. } | Outcome::Closed | Outcome::Refused(_) | Outcome::Failed => {
            Some(Ok(()))
        }
        Outcome::ReadFailed => Some(Err(OnceFault::Input)),
        Outcome::WriteFailed => Some(Err(OnceFault::Output)),
    }
}

/// Serves the reader's requests on a Solo until its connection closes, all at `now` in whole seconds since 1970.
///
/// The n-th request has the token n, and the secret n in 16 big-endian bytes.
pub fn once<E: Engine + Drop, R: Read, W: Write>(
    alloc: Global,
    engine: E,
    now: u64,
    reader: &mut R,
    writer: &mut W,
) -> Result<(), OnceFault>
    requires { E.valid engine }
    ensures served { HasServed E.meaning E.heard engine now (R.remaining reader.old) (W.contents writer.old) (R.remaining reader.new)
        (W.contents writer.new) result }
    // However it was served, the laws of a node alone hold of its steps.
    ensures history { (s : HasServed E.meaning E.heard engine now (R.remaining reader.old) (W.contents writer.old) (R.remaining reader.new)
        (W.contents writer.new) result)
        → IsOneHistory E.meaning E.heard engine s.first s.end.site
        (calls_of (solo_steps E.meaning E.heard) now (sight (R.remaining reader.old) (W.contents writer.old) s.first false) s.end result s.stream) }
{
    let mut site = Solo::new(alloc, engine);
    let mut connection = Connection::new(alloc, false);
    for count in 0..u64::MAX {
        let number = count + 1;
        let moment = Moment {
            now,
            steady: now,
            secret: secret_of(number),
        };
        let served = serve_next(
            alloc,
            &mut connection,
            reader,
            writer,
            &mut site,
            moment,
            number,
        );
        if let Some(end) = ending(served.outcome) {
            return end;
        }
    }
    Ok(())
}
