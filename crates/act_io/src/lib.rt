//! Where bytes come from, where they go, and where threads may be held up.
//!
//! A source gives bytes and a sink takes them, each in pieces of any size. Each counts its faults, and
//! a call may answer `Failed` only where that count rose: this is what the layers above rely on when
//! they say which input or output has failed. Where a source or a sink tells its bytes, the contracts
//! say which bytes a call has moved.
//!
//! There are sources and sinks in memory for tests, which fail at chosen calls, and those over std's
//! readers and writers. `put_all(&mut out, b"zone 7 ok\n")` writes a whole text, or a front of it
//! and then `Failed`.
#![tactic(auto)]

mod failed;
mod gate;
mod memory_sink;
mod memory_source;
mod pieces;
mod sink;
mod source;
mod std_sink;
mod std_source;
mod sure_sink;
mod sure_source;

pub use failed::Failed;
pub use gate::{Gate, NoGate, Place};
pub use memory_sink::MemSink;
pub use memory_source::MemSource;
pub use sink::{Sink, put_all};
pub use source::Source;
pub use std_sink::StdSink;
pub use std_source::StdSource;
pub use sure_sink::SureSink;
pub use sure_source::SureSource;

#[cfg(test)]
mod tests;
