//! HTTP messages in memory: their routes and fields, one after the other, where the source fails, heads and bodies at
//! their limits, and answers that are written.

mod answers;
mod limits;
mod messages;
