// Chart files and series of calls with what they must give, run by the gate.
#![tactic(auto)]

#[cfg(test)]
mod cell_tests;
#[cfg(test)]
mod chart_tests;
#[cfg(test)]
mod id_tests;
mod layout_tests;
