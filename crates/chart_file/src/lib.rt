// Chart files: each line is answered, and then the chart is listed.
#![tactic(auto)]

mod answer;
mod chart;
mod file;
mod interpreter;
mod text;

pub use file::{INPUT_MAX, run};
