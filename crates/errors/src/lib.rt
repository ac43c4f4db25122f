// Why a graph call is refused, and the number that it is refused with.
#![tactic(auto)]

ghost use Rattle.std.specs.Prelude.{◌≡◌};
ghost use Rattle.errors.specs.Refusals.{number};

#[derive(Clone, Copy, Debug, PartialEq, Eq)]
pub enum MatrixError {
    // Less memory was brought than is in use.
    ShortMemory,
    // The graph is at the largest number of nodes for its index.
    NodeIxLimit,
    // The call would take this many places into use, and fewer were brought.
    NoSpace(usize),
    // The node with this id is missing from the graph.
    NodeMissed(u8),
}

impl MatrixError {
    // Formats print this number.
    pub fn number(&self) -> u8
        ensures { result ≡ number self.now }
    {
        match self {
            MatrixError::ShortMemory => 1,
            MatrixError::NodeIxLimit => 2,
            MatrixError::NoSpace(_) => 3,
            MatrixError::NodeMissed(_) => 4,
        }
    }
}
