// The text format of calls: a line read as a call, answers written as a line, and a stream cut into lines.
#![tactic(auto)]

pub mod buffer;
pub mod calls;
pub mod digits;
pub mod duplex;
pub mod floats;
pub mod packing;
pub mod reading;
pub mod replies;
pub mod serving;
pub mod show_text;
pub mod stream;
pub mod words;
pub mod writing;
