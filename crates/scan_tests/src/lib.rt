//! The tests of `yaml_scan`.
//!
//! They are a crate of their own: the gate would prove that crate, or the program `testbench`, once more if the tests
//! were theirs.
#![tactic(auto)]

#[cfg(test)]
mod all_tests;
#[cfg(test)]
mod deep_tests;
#[cfg(test)]
mod fed_tests;
#[cfg(test)]
mod kept_tests;
#[cfg(test)]
mod lent_tests;
#[cfg(test)]
mod parser_tests;
