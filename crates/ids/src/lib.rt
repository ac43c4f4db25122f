// The ids of a graph: which are live, which are vacated, which one is handed out next.
#![tactic(auto)]

mod record;
mod stack;

pub use record::IdStorage;
