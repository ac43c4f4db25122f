// What a line of a chart file asks for, or why it is refused.
#![tactic(auto)]

mod command;
mod fields;
mod kind;
mod refusal;

pub use command::Command;
pub use kind::Kind;
pub use refusal::Refusal;
