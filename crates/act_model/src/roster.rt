//! The callers on the roster.

use act_bodies::{Key, Rank};

/// How many callers the roster may have, the founding officer included.
pub const CALLERS: u64 = 4_294_967_295;

/// A caller that was enrolled.
#[derive(Clone, Copy, Debug)]
pub struct Member {
    /// The key by which the caller is known.
    pub key: Key,
    /// Whether it is an observer or an officer.
    pub rank: Rank,
}

/// Whoever asks, as found by the key.
#[derive(Clone, Copy, Debug)]
pub struct Caller {
    /// 0 for the founding officer, and 1, 2, 3 and so on for those that were enrolled.
    pub number: u32,
    /// Whether it is an observer or an officer. The founding officer is an officer.
    pub rank: Rank,
}
