//! The objects that a container is started with.

use thiserror::Error;

/// An object of an application: a servlet, a filter or a listener, as a rule in a box.
#[derive(Drop)]
pub struct Named<O> {
    /// The number of its context: the context's place in the deployment, from 0.
    pub context: usize,
    /// Its name in the descriptor.
    pub name: String,
    pub object: O,
}

/// Why a container was not started. The numbers are those of the container's list of faults.
#[derive(Clone, Copy, Debug, PartialEq, Eq, Error)]
pub enum StartFault {
    /// Fault 1: the deployment names an object that was not handed in.
    #[error("MissingObject")]
    MissingObject,
    /// Fault 2: an object was handed in that the deployment does not name, or one more of a name.
    #[error("ExtraObject")]
    ExtraObject,
    /// Fault 3: memory was refused.
    #[error("Memory")]
    Memory,
}

/// Why a container was not started, and all objects that were handed in; none of them has been called.
#[derive(Drop)]
pub struct NotStarted<S, F, L> {
    pub fault: StartFault,
    pub servlets: Vec<Named<S>>,
    pub filters: Vec<Named<F>>,
    pub listeners: Vec<Named<L>>,
}
