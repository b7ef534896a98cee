//! How far a connection had come that a node has closed.

/// How far a connection had come that a node has closed before its end.
#[derive(Clone, Copy, PartialEq, Eq)]
pub enum Phase {
    /// Nothing had come.
    New,
    /// A request that wasn't whole.
    Asking,
    /// A connection that is kept, between two requests.
    Resting,
    /// A frame of a peer or of a command that wasn't whole.
    Framing,
    /// A request that waited for its session, and whose client sent no more.
    Waiting,
    /// An answer that wasn't taken.
    Saying,
    /// All was answered, and the client hadn't closed.
    Parting,
}

impl Phase {
    /// Its name in the log.
    pub fn name(self) -> &'static str {
        match self {
            Phase::New => "new",
            Phase::Asking => "asking",
            Phase::Resting => "resting",
            Phase::Framing => "framing",
            Phase::Waiting => "waiting",
            Phase::Saying => "saying",
            Phase::Parting => "parting",
        }
    }

    /// Whether a connection that ends here for its silence ends as it is to end.
    pub fn is_over(self) -> bool {
        matches!(self, Phase::Resting | Phase::Parting)
    }
}
