//! What names a session, and what a step is given by its caller.

/// The nodes of a cluster, at most; they are numbered from 0.
pub const NODE_LIMIT: u8 = 8;

/// The name of a session in the whole cluster, in order of home and then serial.
#[derive(Clone, Copy, Debug, PartialEq, Eq, PartialOrd, Ord, Hash)]
pub struct Key {
    /// The node that made the session, below 8.
    pub home: u8,
    /// Which of that node's sessions it is, from 1.
    pub serial: u64,
}

/// What a client has to know, beside the key, to be given the session.
#[derive(Clone, Copy, Debug, PartialEq, Eq)]
pub struct Secret(pub [u8; 16]);

/// What a step takes from the outside world.
#[derive(Clone, Copy, Debug, PartialEq, Eq)]
pub struct Moment {
    /// Whole seconds since the beginning of 1970, as the machine's clock is set: sessions are used, and expire, by it.
    pub now: u64,
    /// Whole seconds by a clock that nobody sets, wherever it began: requests wait by it.
    pub steady: u64,
    /// The secret of a session that is made in this step, or whose id is changed in it.
    pub secret: Secret,
}

/// One request at one node, over all starts of the node.
#[derive(Clone, Copy, Debug, PartialEq, Eq)]
pub struct Token {
    /// The number that the node's caller gave to the request.
    pub number: u64,
    pub node: u8,
    /// The boot number of the node when the request came.
    pub boot: u64,
}
