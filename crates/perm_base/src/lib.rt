//! The outside of a program: shelves of files, sinks of output, and reading and writing of whole texts.
#![tactic(auto)]

pub mod edge;
pub mod mem_shelf;
pub mod mem_sink;
pub mod outside;
pub mod reading;
pub mod writing;

pub use edge::{FileShelf, StdSink};
pub use mem_shelf::{MemFile, MemShelf};
pub use mem_sink::MemSink;
pub use outside::{Failed, Shelf, Sink};
pub use reading::{ReadFault, read_text};
pub use writing::write_all;

#[cfg(test)]
mod tests;
