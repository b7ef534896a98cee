//! Why a packet to another node was lost.

/// Why a packet to another node was lost. A lost packet is sent again.
#[derive(Clone, Copy, PartialEq, Eq)]
pub enum Loss {
    /// The cluster has no such node.
    NoPeer,
    /// Memory was refused.
    Memory,
    /// The system gave no socket.
    NoSocket,
    /// As many packets are on their way as may be, or as many connections are open.
    NoPlace,
    /// The peer refused the connection, or broke it.
    Broken,
    /// The peer took none of it for a second.
    Late,
    /// It gave way to a client.
    GaveWay,
}

impl Loss {
    /// All of them, in the order in which figures have them.
    pub const ALL: [Loss; 7] = [
        Loss::NoPeer,
        Loss::Memory,
        Loss::NoSocket,
        Loss::NoPlace,
        Loss::Broken,
        Loss::Late,
        Loss::GaveWay,
    ];

    /// Its name in the log and in figures.
    pub fn name(self) -> &'static str {
        match self {
            Loss::NoPeer => "NoPeer",
            Loss::Memory => "Memory",
            Loss::NoSocket => "NoSocket",
            Loss::NoPlace => "NoPlace",
            Loss::Broken => "Broken",
            Loss::Late => "Late",
            Loss::GaveWay => "GaveWay",
        }
    }

    /// Whether it says of the peer that it can't be reached.
    pub fn is_silence(self) -> bool {
        matches!(self, Loss::Broken | Loss::Late)
    }
}
