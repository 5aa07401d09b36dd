//! Survey designations, as `2040 P-L`.

/// A survey that numbered its own finds.
#[derive(Clone, Copy, Debug, PartialEq, Eq, PartialOrd, Ord)]
pub enum Survey {
    /// The Palomar-Leiden survey, P-L.
    PalomarLeiden,
    /// The first Trojan survey, T-1.
    T1,
    /// The second Trojan survey, T-2.
    T2,
    /// The third Trojan survey, T-3.
    T3,
}
