// What a cell of a chart means: nothing, or one weight.
#![tactic(auto)]

mod not_zero;
mod nullable;
mod option;
#[cfg(test)]
mod tests;
mod zero;

pub use not_zero::NotZero;
pub use nullable::Nullable;
pub use zero::Zero;
