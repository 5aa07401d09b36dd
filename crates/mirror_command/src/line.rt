//! The line that says how many rows a mirror holds.

ghost use Rattle.std.specs.Prelude.{◌≡◌};
ghost use Rattle.mirror_command.specs.Lines.{line_text};

use arrayvec::ArrayVec;
use itoa::Buffer;
use mirror_store::Refreshed;

/// The most bytes of the line: its words, three numbers of at most 20 digits, and the line feed.
const LINE_BYTES: usize = 85;

/// `mirror N objects O sights S`, with a line feed at the end. It takes no memory.
pub fn line(refreshed: Refreshed) -> ArrayVec<u8, LINE_BYTES>
    ensures { result.items ≡ line_text refreshed.entries refreshed.objects refreshed.sights }
{
    let mut buffer = Buffer::new();
    let mut line = ArrayVec::new();
    line.try_extend_from_slice(b"mirror ").unwrap();
    line.try_extend_from_slice(buffer.format(refreshed.entries).as_bytes())
        .unwrap();
    line.try_extend_from_slice(b" objects ").unwrap();
    line.try_extend_from_slice(buffer.format(u64::from(refreshed.objects)).as_bytes())
        .unwrap();
    line.try_extend_from_slice(b" sights ").unwrap();
    line.try_extend_from_slice(buffer.format(u64::from(refreshed.sights)).as_bytes())
        .unwrap();
    line.push(b'\n');
    line
}
