//! One act, and its journal as it stands on either disk.

/// The founder enrols an observer, on 2024-04-01 where a run answers it first; and the answer.
pub const ENROLS: &str = concat!(
    "+founder-1 1 enrol 51\n",
    "{\"key\":\"observer-1\",\"name\":\"Ann\",\"role\":\"observer\"}",
);

pub const ENROLLED: &str = "200 19\nreceipt 1\ncaller 1\n";

/// The first file of that act. An open gate, the length 72 of what follows but for the last byte, caller 0, number 1,
/// the moment, the verb's code 1, a body of 51 bytes, a closed gate.
pub const PLAIN: [u8; 78] =
    *b"\x01\0\0\0\x48\0\0\0\0\0\0\0\0\0\0\0\x01\x17\xc1\xfe\xe6\xa8\x7a\0\0\x01\
        {\"key\":\"observer-1\",\"name\":\"Ann\",\"role\":\"observer\"}\0";

/// The second file of that act. The byte 1, an open gate, the same parcel from its length to its body, the SHA-256
/// digest of 32 bytes of 0 and of that parcel, a closed gate.
pub const CHAINED: [u8; 111] =
    *b"\x01\x01\0\0\0\x48\0\0\0\0\0\0\0\0\0\0\0\x01\x17\xc1\xfe\xe6\xa8\x7a\0\0\x01\
        {\"key\":\"observer-1\",\"name\":\"Ann\",\"role\":\"observer\"}\
        \x9e\xb5\xf8\xae\xd6\xbb\x29\x0b\x09\xb7\x49\x53\x7e\xc3\xa0\x2b\
        \x76\x13\x7c\x7f\x6d\xf5\xf5\x74\x19\xda\x70\x33\x7d\x05\x10\x41\0";
