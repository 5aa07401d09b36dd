//! Why connections are left.

/// Why a connection was left.
#[derive(Clone, Copy, Debug, PartialEq, Eq)]
pub enum Left {
    /// The input ended after a request, with fewer than 1,000 answers; or a request that asked to close was answered.
    Ended,
    /// What came was no request. It was answered once, by `400` and `refused 1 Unread head`.
    Unread,
    /// 1,000 requests were answered, and the last one didn't ask to close.
    Enough,
    /// The source failed.
    ReadFault,
    /// The sink failed inside an answer.
    WriteFault,
    /// Memory was refused: for the connection's buffer, or for the text of an answer.
    NoMemory,
}
