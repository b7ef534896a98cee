//! A visit: the pages that a session is shown, and the nodes that show them.

ghost use Rattle.std.specs.Prelude.{◌≡◌};
ghost use Rattle.example_cart.specs.Kept.{new_visit};
ghost use Rattle.example_cart.specs.Visit.{arrived};

/// What a session notes of its pages.
#[derive(Clone, Copy, Debug)]
pub struct Visit {
    /// The number of the last page; from 1, and the greatest number of 32 bits stays.
    pub page: u32,
    /// The node that showed it.
    pub node: u8,
    /// How often a page was shown by another node than the one before.
    pub moves: u32,
}

impl Visit {
    /// A visit that begins at a node.
    pub fn new(node: u8) -> Visit
        ensures { result ≡ new_visit node }
    {
        Visit {
            page: 0,
            node,
            moves: 0,
        }
    }

    /// The next page, shown by this node.
    pub fn arrived(self, node: u8) -> Visit
        ensures { result ≡ arrived node self }
    {
        let moves = if self.node == node {
            self.moves
        } else {
            self.moves.saturating_add(1)
        };
        Visit {
            page: self.page.saturating_add(1),
            node,
            moves,
        }
    }
}
