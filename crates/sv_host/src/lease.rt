//! Sessions that have come here of late, and how long each of them stays.

ghost use Rattle.std.specs.Prelude.{◌≡◌, ◌⊎◌, ◌<◌, [], IfSome, length, position};
ghost use Rattle.sv_host.specs.Lease.{end_of, few, is_key, is_of, knows, leases_of, left, with, without};

use std::alloc::{AllocFailed, Global};
use sv_model::Key;

/// So many of them are remembered. One that is forgotten may leave at once.
const LEASES: usize = 64;

/// A session that has come here.
#[derive(Clone, Copy, Debug, PartialEq, Eq)]
pub struct Lease {
    pub key: Key,
    /// Under which epoch it came. A grant of no later one brings nothing.
    pub epoch: u64,
    /// Until when it stays though others want it, in milliseconds by the clock that nobody sets; none once it was given to one of them.
    pub end: Option<u64>,
}

/// Sessions that have come here of late, in the order in which they came, and how long each of them stays.
#[derive(Drop)]
pub struct Leases {
    leases: Vec<Lease>,
}

/// Two keys are one.
pub fn is_key(one: Key, other: Key) -> bool
    ensures { result ≡ is_key one other }
{
    one.home == other.home && one.serial == other.serial
}

/// It is of the session of this key.
fn is_of(key: Key, lease: &Lease) -> bool
    ensures { result ≡ is_of key lease.now }
{
    is_key(key, lease.key)
}

/// Where that of a session stands.
fn position(leases: &[Lease], key: Key) -> Option<usize>
    ensures position { result ≡ position (is_of key) leases.now }
    ensures within { IfSome result (λ at. at < length leases.now) }
{
    leases.iter().position(|lease| is_of(key, lease))
}

impl Leases {
    pub fn new(alloc: Global) -> Leases
        ensures { leases_of result ≡ [] }
    {
        Leases {
            leases: Vec::new(alloc),
        }
    }

    /// Until when a session stays; none where it hasn't come of late, or was given away.
    pub fn end(&self, key: Key) -> Option<u64>
        ensures { result ≡ end_of key (leases_of self.now) }
    {
        let at = position(self.leases.as_slice(), key)?;
        self.leases[at].end
    }

    /// A session has come under this epoch before, or under a later one.
    pub fn knows(&self, key: Key, epoch: u64) -> bool
        ensures { result ≡ knows key epoch (leases_of self.now) }
    {
        match position(self.leases.as_slice(), key) {
            Some(at) => epoch <= self.leases[at].epoch,
            None => false,
        }
    }

    /// A session is given away.
    pub fn leave(&mut self, key: Key)
        ensures { leases_of self.new ≡ left key (leases_of self.old) }
    {
        if let Some(at) = position(self.leases.as_slice(), key) {
            self.leases[at].end = None;
        }
    }

    /// Forgets what is known of a session.
    fn forget(&mut self, key: Key)
        ensures { leases_of self.new ≡ without key (leases_of self.old) }
    {
        if let Some(at) = position(self.leases.as_slice(), key) {
            self.leases.remove(at);
        }
    }

    /// Forgets the first one, where as many are remembered as may be.
    fn make_room(&mut self)
        ensures { leases_of self.new ≡ few (leases_of self.old) }
    {
        if self.leases.len() >= LEASES {
            self.leases.remove(0);
        }
    }

    /// A session has come. Where there is no memory for it, it may leave at once.
    pub fn begin(&mut self, lease: Lease)
        ensures { (leases_of self.new ≡ with lease (leases_of self.old)) ⊎ (leases_of self.new ≡ few (without lease.key (leases_of self.old))) }
    {
        self.forget(lease.key);
        self.make_room();
        let _kept: Result<(), AllocFailed<Lease>> = self.leases.push(lease);
    }
}
