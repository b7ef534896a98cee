//! The numbers of nodes.

ghost use Rattle.sv_model.specs.Keys.{IsNode};

/// The number of a node: 0 to 7.
#[derive(Clone, Copy, Debug, PartialEq, Eq)]
pub struct NodeNumber {
    pub value: u8,
    ghost below: { IsNode value },
}
