//! Searches in plain lists, which stand oldest first; the definitions' lists stand newest first.

ghost use Rattle.std.specs.Prelude.{◌≡◌, reverse, option_copied};
ghost use Rattle.tracklet_file.specs.Numbering.{numbered};

/// The item with this number, in a list that stands oldest first. Items are numbered from 1 in the order in which they
/// came, so that 0 is no item's number.
pub fn numbered<T>(items: &[T], number: u64) -> Option<&T>
    ensures { option_copied result ≡ numbered (reverse items.now) number }
{
    if number == 0 {
        return None;
    }
    items.get((number - 1) as usize)
}
