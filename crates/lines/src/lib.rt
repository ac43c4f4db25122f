// Lines of an input, byte by byte.
#![tactic(auto)]

mod reader;
#[cfg(test)]
mod tests;

pub use reader::{LINE_MAX, LineReader, TooLong};
