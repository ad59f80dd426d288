//! The top call: it checks and runs a program of the language, and does all that the command does.
#![tactic(auto)]

mod run;

pub use run::run_words;
