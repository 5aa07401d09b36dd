//! The numbers that a seed starts.

ghost use Rattle.std.specs.Prelude.{◌≡◌};
ghost use Rattle.office_workload.specs.Generating.{number_after};

/// By what a number is multiplied, and what is then added.
const FACTOR: u128 = 6_364_136_223_846_793_005;

const SUMMAND: u128 = 1_442_695_040_888_963_407;

/// The number after this one.
#[tactic(auto, unfolding(crate::specs::Generating::number_after))]
pub(crate) fn number_after(x: u64) -> u64
    ensures { result ≡ number_after x }
{
    ((FACTOR * u128::from(x) + SUMMAND) % 18_446_744_073_709_551_616) as u64
}
