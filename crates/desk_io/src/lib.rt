//! The outside of the desk: where bytes come from, where they go, what time it is, and where links come from.
#![tactic(auto)]

mod accepting;
mod clocks;
mod doors;
mod links;
mod memory;
mod outside;
mod streams;
mod tcp;

pub use clocks::{SystemClock, TickClock};
pub use doors::{Door, MemDoor, Next};
pub use item_list::NoMemory;
pub use links::{HalfStream, LinkLimits};
pub use memory::{MemSink, MemSource};
pub use outside::{Clock, Failed, Sink, Source, write_all};
pub use streams::{StreamSink, StreamSource};
pub use tcp::TcpDoor;
