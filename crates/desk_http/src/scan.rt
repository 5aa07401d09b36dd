//! How far a head has come, so that it is parsed where its parse can say more than the one before it did.

ghost use Rattle.std.specs.Prelude.{◌≡◌, ◌≢◌, ◌+◌, ◌<◌, ◌≤◌, ◌⊎◌, ◌++◌, List, ℕ, length, false, Contains};
ghost use Rattle.desk_http.specs.Scans.{is_ended, scan_byte, scanned};
ghost use Rattle.desk_http.specs.declared.TheConstants.{HEAD_BYTES};
ghost use Rattle.desk_http.specs.declared.scan.Scan.TheVariants.{Blank};

use crate::HEAD_BYTES;

/// How far a head has come.
#[derive(Clone, Copy, Debug, PartialEq, Eq)]
pub enum Scan {
    /// Nothing but empty lines in front of it.
    Blank,
    /// Inside a line that isn't empty.
    Inside,
    /// At the end of a line that isn't empty.
    LineEnd,
    /// A carriage return stands at the front of the next line.
    Return,
    /// An empty line has come after a line that isn't empty.
    Ended,
}

impl Scan {
    /// Whether an empty line has come after a line that isn't empty.
    pub fn is_ended(self) -> bool
        ensures { result ≡ is_ended self }
    {
        matches!(self, Scan::Ended)
    }
}

// One byte more.
#[tactic(auto, unfolding(crate::specs::Scans::scan_byte))]
fn scan_byte(scan: Scan, byte: u8) -> Scan
    ensures { result ≡ scan_byte scan byte }
{
    match (scan, byte) {
        (Scan::Ended, _) => Scan::Ended,
        (Scan::Blank, b'\n' | b'\r') => Scan::Blank,
        (Scan::Inside, b'\n') => Scan::LineEnd,
        (Scan::LineEnd | Scan::Return, b'\n') => Scan::Ended,
        (Scan::LineEnd, b'\r') => Scan::Return,
        _ => Scan::Inside,
    }
}

/// How far a head has come with more bytes, where it had come so far with those before them. It looks at no byte after
/// the head's end.
#[tactic(auto, unfolding(crate::specs::Scans::scanned))]
pub fn scan_more(scan: Scan, bytes: &[u8]) -> Scan
    ensures { (before : List ℕ) → scan ≡ scanned before → result ≡ scanned (before ++ bytes.now) }
{
    let mut now = scan;
    for byte in bytes {
        if now.is_ended() {
            return now;
        }
        now = scan_byte(now, *byte);
    }
    now
}

/// How far the bytes that have come were looked at.
#[derive(Clone, Copy, Debug)]
pub struct Looked {
    /// How far a head has come with them.
    pub scan: Scan,
    /// How many they were.
    pub seen: usize,
    /// How many of them were parsed last.
    pub parsed: usize,
}

impl Looked {
    /// No byte has come.
    pub fn nothing() -> Looked
        ensures { result ≡ record { scan = Blank; seen = 0; parsed = 0 } }
    {
        Looked {
            scan: Scan::Blank,
            seen: 0,
            parsed: 0,
        }
    }
}

// Whether a line feed came with these bytes but those of empty lines in front of the head.
fn is_line_over(before: Scan, now: Scan, fresh: &[u8]) -> bool
    ensures { result ≡ false → (now ≡ Blank) ⊎ ((before ≢ Blank) × ¬ (Contains fresh.now 10)) }
{
    match (before, now) {
        (_, Scan::Blank) => false,
        (Scan::Blank, _) => true,
        _ => fresh.contains(&b'\n'),
    }
}

/// Whether the bytes are parsed now that these ones have come: where a head has ended, or the longest one would have,
/// where a line has, and where more bytes have come since the last parse than it was of.
///
/// A head has few lines, so that it is parsed in time linear in its bytes, however they come.
pub fn is_due(before: Scan, now: &Looked, fresh: &[u8]) -> bool
    ensures lines { result ≡ false → (now.now.scan ≡ Blank) ⊎ ((before ≢ Blank) × ¬ (Contains fresh.now 10)) }
    ensures half { result ≡ false → now.now.seen ≤ now.now.parsed + now.now.parsed }
    ensures unended { result ≡ false → is_ended now.now.scan ≡ false }
    ensures short { result ≡ false → now.now.seen < HEAD_BYTES }
{
    is_line_over(before, now.scan, fresh)
        || now.scan.is_ended()
        || now.seen >= HEAD_BYTES
        || now.seen.saturating_sub(now.parsed) > now.parsed
}
