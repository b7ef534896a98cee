//! Bytes in their order, which only clauses read.

ghost use Rattle.std.specs.Borrow.{ftrue};
ghost use Rattle.std.specs.Prelude.{◌≡◌, ◌++◌, ℕ, List, []};

use std::marker::{Model, PhantomData};

/// What came on a socket, or what left by it. It takes no memory, and no call of it does anything when the program runs.
#[derive(Drop)]
pub struct Tape {
    marker: PhantomData<u8>,
    pub ghost bytes: { List ℕ },
}

impl Model for Tape {
    ghost also_owns = { λ _. ftrue };
}

/// The proofs of these two are by hand, since they set what no memory holds. No other function makes a tape or changes one.
impl Tape {
    pub(crate) fn new() -> Tape
        ensures { result.bytes ≡ [] }
    {
        Tape {
            marker: PhantomData,
        }
    }

    /// These bytes are after those before.
    pub(crate) fn note(&mut self, _bytes: &[u8])
        ensures { self.new.bytes ≡ self.old.bytes ++ _bytes.now }
    {}
}
