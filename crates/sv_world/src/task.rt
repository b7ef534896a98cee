//! What an event asks of a node.

use sv_model::{Input, Moment};

/// What a node is to do.
#[derive(Drop)]
pub enum Task {
    /// A whole step.
    Step {
        moment: Moment,
        input: Input,
    },
    /// A torn step: a stop cuts it, after its record where that is `kept`, else before it.
    Torn {
        moment: Moment,
        input: Input,
        kept: bool,
    },
    /// A silent step: nothing of it leaves the node.
    Silent {
        moment: Moment,
        input: Input,
    },
    /// To stop.
    Stop,
    /// To start.
    Start,
    /// A torn start: a stop cuts it, after its record where that is `kept`, else before it.
    TornStart {
        kept: bool,
    },
}
