//! Tests of keys.

use act_bodies::Key;

/// Whether a key has its text and is the key of that text alone, and whether of 35 bytes the last isn't kept.
fn found() -> [bool; 4] {
    let ann = Key::new(b"observer-1");
    let long = Key::new(b"0123456789abcdefghij0123456789abcdX");
    [
        ann.text() == b"observer-1".as_slice(),
        ann.is(&Key::new(b"observer-1")),
        !ann.is(&Key::new(b"observer-10")),
        long.is(&Key::new(b"0123456789abcdefghij0123456789abcd")),
    ]
}

#[test]
fn keys(rt: HostRuntime) {
    let found = found();
    assert_eq!(rt; found, [true; 4]);
}
