// Which cell a pair of ids has, and how a chart grows: from numbers alone.
#![tactic(auto)]

mod capacity;
mod directed;
mod edge_type;
mod row_starts;
mod undirected;

pub use capacity::Capacity;
pub use directed::Directed;
pub use edge_type::EdgeType;
pub use undirected::Undirected;
