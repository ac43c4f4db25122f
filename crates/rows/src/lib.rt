// Moving and filling rows of lent cells, as a matrix grows.
#![tactic(auto)]

mod growth;
mod row;
mod run;

pub use growth::grow;
pub use row::fill;
