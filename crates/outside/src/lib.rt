//! What lies outside the program: files by their names, and sources and sinks of bytes, as traits, with
//! objects in memory and the real ones.
#![tactic(auto)]

mod bytes;
mod calls;
mod files;
mod gathered;
mod readers;
mod shelf;
mod shelves;
mod sink;
mod source;
mod streams;

pub use bytes::Bytes;
pub use files::Files;
pub use gathered::Gathered;
pub use readers::{Reader, StdIn};
pub use shelf::{Shelf, ShelfFault};
pub use shelves::Shelves;
pub use sink::{Put, Sink, SinkFault, put_all};
pub use source::{Got, Source};
pub use streams::{StdErr, StdOut, Stream};
