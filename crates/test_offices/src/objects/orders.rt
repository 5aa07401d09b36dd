//! Designations of one half-month by their orders.

use packed_names::{Designation, HalfMonth, Provisional};

/// 2024 EA, EB, EC and ED have the orders 1 to 4.
pub(super) fn given(order: u32) -> Designation {
    Designation::Provisional(Provisional {
        half: HalfMonth {
            year: 2024,
            index: 4,
        },
        order,
    })
}
