//! How many observations and objects are more than rows can count.

use mirror_store::too_many;

/// The accepted observations, the objects, and how many are too many.
const COUNTS: &[(u64, u64, Option<u64>)] = &[
    (0, 0, None),
    (4_294_967_295, 0, None),
    (4_294_967_295, 4_294_967_295, None),
    (4_294_967_296, 0, Some(4_294_967_296)),
    (0, 4_294_967_296, Some(4_294_967_296)),
    (4_294_967_295, 5_000_000_000, Some(5_000_000_000)),
    // The observations are told first.
    (4_294_967_297, 5_000_000_000, Some(4_294_967_297)),
    (u64::MAX, u64::MAX, Some(u64::MAX)),
];

/// The first row by its place in the table that is answered otherwise; None where each is as wanted.
fn wrong_count() -> Option<usize> {
    COUNTS.iter().position(|&(accepted, principals, wanted)| too_many(accepted, principals)
        != wanted)
}

#[test]
fn more_than_rows_can_count(rt: HostRuntime) {
    assert_eq!(rt; wrong_count(), None);
}
