// A layout for tests: it shares the mirrored pairs of id 0 and no others.
#![tactic(auto)]

mod uneven;

pub use uneven::Uneven;
