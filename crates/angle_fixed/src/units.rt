//! The parts of angles, in units of 1/9,000,000,000,000 degree.

pub const HOUR: u64 = 135_000_000_000_000;

pub const MINUTE_OF_TIME: u64 = 2_250_000_000_000;

pub const SECOND_OF_TIME: u64 = 37_500_000_000;
/// The thousandth part of a second of time.
pub const THOUSANDTH_OF_SECOND: u64 = 37_500_000;

pub const DEGREE: u64 = 9_000_000_000_000;
/// One in the twelfth decimal of a degree.
pub const TWELFTH_DECIMAL: u64 = 9;

pub const ARCMINUTE: u64 = 150_000_000_000;

pub const ARCSECOND: u64 = 2_500_000_000;
/// The hundredth part of an arcsecond.
pub const HUNDREDTH_OF_ARCSECOND: u64 = 25_000_000;
/// 24 hours, 360 degrees.
pub const CIRCLE: u64 = 3_240_000_000_000_000;
/// 90 degrees.
pub const QUARTER: u64 = 810_000_000_000_000;
