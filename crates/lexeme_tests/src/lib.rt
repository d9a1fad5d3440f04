//! The tests of `yaml_text` and `yaml_lexeme`.
//!
//! They are a crate of their own: the gate would prove those crates once more if the tests were theirs.
#![tactic(auto)]

#[cfg(test)]
mod class_tests;
#[cfg(test)]
mod enum_tests;
#[cfg(test)]
mod lexeme_tests;
#[cfg(test)]
mod text_tests;
