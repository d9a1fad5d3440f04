//! Reads an input, and writes the listing of the answer to a command: a line for each token, for each answer to a list
//! of calls, or for the text, and one for the fault, if there is one.
#![tactic(auto)]

mod answer;
mod args;
mod devices;
mod following;
mod line;
mod listing;
mod mark;
mod note;
mod outcome;
mod pace;
mod put;
pub mod run;
mod word_fault;

pub use args::{parse_args, parse_follow, yaml_command_t};
pub use devices::{yaml_broken_t, yaml_sink_of_t, yaml_sink_t, yaml_source_of_t, yaml_source_t};
pub use following::follow;
pub use listing::{list_fault, list_peek, list_token};
pub use note::{note_text, parse_note, tell, yaml_note_t};
pub use outcome::{tool_fault_t, yaml_status};
pub use word_fault::{fault_of_words, yaml_word_fault_t};
