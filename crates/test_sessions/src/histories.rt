//! Long histories: they are made by sessions of frames, and the office is opened again of the journal that was left,
//! asked the same, and sent the same acts once more.

mod carried;
mod each_count;
mod half_months;
mod many_callers;
mod openings;
mod told;
mod whole;
