//! Requests that were heard.

use crate::head::HeadParts;
use act_model::{Body, Request};

/// What a wire hears next.
#[derive(Debug, Drop)]
pub enum Heard {
    /// A request.
    Request {
        /// What was asked.
        request: Request,
        /// Whether the answer to it is the last one: it is of HTTP/1.0, or asks to close.
        last: bool,
    },
    /// The source ended, and no byte of a further request had come.
    End,
    /// What comes next is no request: its head breaks the rules, or the source ended inside it. It is answered once,
    /// and nothing more is read.
    Unread,
    /// The source failed before a request had come.
    ReadFault,
}

/// A head and its body.
#[derive(Debug, Drop)]
pub struct Whole {
    /// What the head says.
    pub parts: HeadParts,
    /// The body.
    pub body: Body,
}
