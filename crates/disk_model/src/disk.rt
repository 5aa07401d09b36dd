//! What is known of a disk: what reads give, what a crash may leave, how often it has failed.
//!
//! Until a sync, a crash may leave any bytes where a write was, also one that failed. Of a disk whose content isn't
//! known, as a real file, no read is known and no image; its count of faults is always known.

ghost use Rattle.std.specs.Prelude.{◌≡◌, ℕ, ◌≤◌, List, length, IfOk, OnOk, OnErr, IfSome, IsSome, Option, Some};
ghost use Rattle.call_log.specs.Counts.{Rises};
ghost use Rattle.disk_model.specs.Files.{Gives, written, cut_to};
ghost use Rattle.disk_model.specs.Crashes.{Torn, CutTo, After, Passes, EachSince};

use std::error::Error;
use std::fmt;
use std::fmt::{Display, Formatter};

/// The disk failed in this call. Its count of faults has risen.
#[derive(Clone, Copy, Debug, PartialEq, Eq)]
pub struct Failed;

impl Display for Failed {
    fn fmt<W: fmt::Write>(&self, f: &mut Formatter<W>) -> fmt::Result {
        f.pad("the disk failed")
    }
}

impl Error for Failed {}

/// A disk with one file.
///
/// Each call is a span of time, in which a crash may come at any moment.
pub trait Disk: Drop {
    /// The bytes of the file, as reads give them, where they are known.
    ghost reads: { Self → Option (List ℕ) };

    /// The images: what a crash at this moment may leave of the file.
    ghost leaves: { Self → List ℕ → Type 0 };

    /// The moment, as a number that never falls.
    ghost moment: { Self → ℕ };

    /// The images at some moment from that one on, inside a call or between two.
    ghost since: { Self → ℕ → List ℕ → Type 0 };

    /// How often the disk has failed.
    ghost faults: { Self → ℕ };

    /// The length of the file in bytes.
    ///
    /// # Errors
    ///
    /// `Failed` where the disk failed.
    fn len(&mut self) -> Result<u64, Failed>
        ensures given { IfOk result (λ n. IfSome (reads self.old) (λ file. n ≡ length file)) }

        ensures reads { reads self.new ≡ reads self.old }
        ensures time { Passes moment since self.old self.new }
        ensures images { EachSince moment since self.old self.new (leaves self.old) }
        ensures counts { faults self.old ≤ faults self.new }
        ensures cause { OnErr result (Rises (faults self.old) (faults self.new)) };

    /// Reads from this offset on into the front of the piece, and says how many bytes it read: 0 exactly for an empty
    /// piece, or from the end of the file on.
    ///
    /// # Errors
    ///
    /// `Failed` where the disk failed.
    fn read_at(&mut self, at: u64, piece: &mut [u8]) -> Result<usize, Failed>
        ensures given { IfOk result (λ n. IfSome (reads self.old) (λ file. Gives file at n piece.old piece.new)) }
        ensures within { IfOk result (λ n. n ≤ length piece.old) }

        ensures reads { reads self.new ≡ reads self.old }
        ensures time { Passes moment since self.old self.new }
        ensures images { EachSince moment since self.old self.new (leaves self.old) }
        ensures counts { faults self.old ≤ faults self.new }
        ensures cause { OnErr result (Rises (faults self.old) (faults self.new)) };

    /// Writes the bytes at this offset, over what is there and past the end.
    ///
    /// # Errors
    ///
    /// `Failed` where the disk failed. Then too a crash may leave any bytes in the range.
    fn write_at(&mut self, at: u64, bytes: &[u8]) -> Result<(), Failed>
        ensures wrote { OnOk result
            (IfSome (reads self.old) (λ file. reads self.new ≡ Some (written at bytes.now file))) }

        ensures time { Passes moment since self.old self.new }
        ensures images { EachSince moment since self.old self.new
            (After (Torn at (length bytes.now)) (leaves self.old)) }
        ensures counts { faults self.old ≤ faults self.new }
        ensures cause { OnErr result (Rises (faults self.old) (faults self.new)) };

    /// Cuts the file to this length. A file that isn't longer stays as it is.
    ///
    /// # Errors
    ///
    /// `Failed` where the disk failed. Then too a crash may leave the file cut.
    fn cut(&mut self, len: u64) -> Result<(), Failed>
        ensures cut { OnOk result (IfSome (reads self.old) (λ file. reads self.new ≡ Some (cut_to len file))) }

        ensures time { Passes moment since self.old self.new }
        ensures images { EachSince moment since self.old self.new (After (CutTo len) (leaves self.old)) }
        ensures counts { faults self.old ≤ faults self.new }
        ensures cause { OnErr result (Rises (faults self.old) (faults self.new)) };

    /// Waits until the file is safe: after it, a crash leaves what reads give.
    ///
    /// # Errors
    ///
    /// `Failed` where the disk failed. Then a crash may still leave what it could leave before.
    fn sync(&mut self) -> Result<(), Failed>
        ensures safe { OnOk result ((image : List ℕ) → leaves self.new image → reads self.new ≡ Some image) }

        ensures reads { reads self.new ≡ reads self.old }
        ensures time { Passes moment since self.old self.new }
        ensures images { EachSince moment since self.old self.new (leaves self.old) }
        ensures counts { faults self.old ≤ faults self.new }
        ensures cause { OnErr result (Rises (faults self.old) (faults self.new)) };

    /// The file as reads give it is one of the images.
    ghost as_read: { (disk : Self) (file : List ℕ) → reads disk ≡ Some file → leaves disk file };

    /// Of a disk with an image the reads are known: one of which nothing is known has no image.
    ghost known: { (disk : Self) (image : List ℕ) → leaves disk image → IsSome (reads disk) };

    /// An image now is one since each earlier moment.
    ghost counts_now: { (disk : Self) (t : ℕ) (image : List ℕ) →
        t ≤ moment disk → leaves disk image → since disk t image };

    /// Since this moment there is no other.
    ghost only_now: { (disk : Self) (image : List ℕ) → since disk (moment disk) image → leaves disk image };
}
