//! What a dispatch has come to: what is to be done next, and what waits for it.

use crate::view::View;
use crate::visit::Ask;
use sv_model::Text;

/// How one dispatch ended.
#[derive(Drop)]
pub enum Ending {
    Finished,
    /// The error page of a status is asked for.
    Failed { code: u16, text: Text },
    /// The error page of a fault is asked for.
    Faulted(Text),
    /// Too deep, or too many service calls: nothing more is called.
    Abandoned,
}

/// A dispatch whose servlet is to be called.
#[derive(Drop)]
pub struct Open<'a> {
    pub view: View<'a>,
    /// The filters that passed, in order.
    pub passed: Vec<usize>,
    pub servlet: usize,
    /// The number to resume the servlet with.
    pub resume: u16,
}

/// What a servlet waits for while another dispatch runs.
#[derive(Clone, Copy)]
pub enum Then {
    /// A forward: its own dispatch ends as that one does.
    Return,
    /// An include: it is called again with the number.
    Resume(u16),
}

/// A dispatch that waits for another one.
#[derive(Drop)]
pub struct Frame<'a> {
    pub held: Open<'a>,
    pub then: Then,
}

/// What is to be done next.
#[derive(Drop)]
pub enum Mode<'a> {
    Enter(Ask<'a>),
    Serve(Open<'a>),
    Nest(Frame<'a>, Ask<'a>),
    Leave(Ending),
}
