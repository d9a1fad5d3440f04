//! The tests of `yaml_listing`, and with them the worked rows.
//!
//! They are a crate of their own: the gate would prove that crate once more if the tests were theirs.
#![tactic(auto)]

#[cfg(test)]
mod decode_tests;
#[cfg(test)]
mod follow_tests;
#[cfg(test)]
mod line_tests;
#[cfg(test)]
mod note_tests;
#[cfg(test)]
mod row_tests;
#[cfg(test)]
mod scan_tests;
#[cfg(test)]
mod tests;
#[cfg(test)]
mod word_fault_tests;
