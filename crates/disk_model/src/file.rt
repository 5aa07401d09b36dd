//! How a disk in memory changes the bytes of its file, and what a crash leaves of a change.

ghost use Rattle.std.specs.Prelude.{◌≡◌, ◌+◌, ◌<◌, ◌≤◌, ◌++◌, take, drop, length, vec_capacity};
ghost use Rattle.disk_model.specs.Files.{lengthened, written};
ghost use Rattle.disk_model.specs.Crashes.{Torn, CutTo};

// Fills the file with zeros up to this length.
fn lengthen(file: &mut Vec<u8>, len: usize)
    requires { len ≤ vec_capacity file.old }
    ensures items { file.new.items ≡ lengthened len file.old.items }
    ensures capacity { vec_capacity file.old ≤ vec_capacity file.new }
{
    while file.len() < len {
        file.push_reserved(0);
    }
}

// Puts the bytes in the place of as many others.
fn replace(bytes: &mut [u8], at: usize, others: &[u8])
    requires { at + length others.now ≤ length bytes.old }
    ensures { bytes.new ≡ take at bytes.old ++ others.now ++ drop (at + length others.now) bytes.old }
{
    bytes[at..at + others.len()].copy_from_slice(others);
}

// Writes the bytes over what is there, and past the end.
pub fn write_over(file: &mut Vec<u8>, at: usize, bytes: &[u8])
    requires { 0 < length bytes.now → at + length bytes.now ≤ vec_capacity file.old }
    ensures items { file.new.items ≡ written at bytes.now file.old.items }
    ensures capacity { vec_capacity file.old ≤ vec_capacity file.new }
{
    if bytes.is_empty() {
        return;
    }
    lengthen(file, at + bytes.len());
    replace(file, at, bytes);
}

// Which part of this many bytes reaches the file, from where to where: none, all, the front half, the back half, the
// last byte.
fn part(digit: u64, count: usize) -> (usize, usize)
    ensures order { result.0 ≤ result.1 }
    ensures within { result.1 ≤ count }
    ensures none { digit ≡ 0 → result.1 ≡ 0 }
{
    match digit {
        1 => (0, count),
        2 => (0, count / 2),
        3 => (count / 2, count),
        4 => (count - count.min(1), count),
        _ => (0, 0),
    }
}

// Writes a part of the bytes, as a crash may leave it. The digit 0 loses them all.
pub fn tear(image: &mut Vec<u8>, at: usize, bytes: &[u8], digit: u64)
    requires { 0 < length bytes.now → at + length bytes.now ≤ vec_capacity image.old }
    ensures torn { Torn at (length bytes.now) image.old.items image.new.items }
    ensures none { digit ≡ 0 → image.new.items ≡ image.old.items }
    ensures capacity { vec_capacity image.old ≤ vec_capacity image.new }
{
    let (from, to) = part(digit, bytes.len());
    write_over(image, at + from, &bytes[from..to]);
}

// Cuts the file, or a part of what is cut, as a crash may leave it. The digit 0 cuts nothing.
pub fn tear_cut(image: &mut Vec<u8>, len: usize, digit: u64)
    ensures cut { CutTo len image.old.items image.new.items }
    ensures none { digit ≡ 0 → image.new.items ≡ image.old.items }
    ensures capacity { vec_capacity image.old ≤ vec_capacity image.new }
{
    let left = match digit {
        1 => len,
        2 => len.max(image.len() / 2),
        _ => len.max(image.len()),
    };
    image.truncate(left);
}
