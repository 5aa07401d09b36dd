//! What the head of a request says.

ghost use Rattle.std.specs.Prelude.{◌≡◌, ◌≤◌, ℕ, List, [], ◌∷◌, ◌++◌, length, map, All, codes, is_some, take};
ghost use Rattle.httparse.specs.Spans.{IsWithin, IsHeaderWithin, IsRequestWithin, IsRequestOf, header_bytes};
ghost use Rattle.httparse.specs.Spans.{span_bytes};
ghost use Rattle.http1.specs.Fields.{values_named};
ghost use Rattle.desk_http.specs.Heads.{key_in, length_in, body_length, uncoded, names_close, said_of};
ghost use Rattle.httparse.specs.Grammar.{MayBecomeRequest};
ghost use Rattle.desk_http.specs.Fronts.{IsNamed, ReadsFront};
ghost use Rattle.desk_http.specs.Reading.{IsLooked};

use crate::route::{Asked, asked_of};
use crate::routes::Routes;
use crate::scan::{Looked, is_due, scan_more};
use crate::{HEAD_BYTES, HEAD_FIELDS, LENGTH_DIGITS};
use act_bodies::Key;
use ascii_text::digits::Radix;
use ascii_text::reading::digits_at;
use http1::fields::KnownFields;
use http1::text::eq_ignore_case;
use httparse::Status;
use httparse::spans::{EMPTY_HEADER_SPAN, HeaderSpan, RequestSpans, parse_request};

/// What the head of a request says.
#[derive(Clone, Copy, Debug)]
pub struct HeadParts {
    /// The key of whoever asks, by the field Desk-Key; an empty one where it is missing.
    pub key: Key,
    /// What is asked.
    pub asked: Asked,
    /// How many bytes the body has, by the field Content-Length; 0 where it is missing.
    pub length: u64,
    /// Whether the answer is the last one: the request is of HTTP/1.0, or asks by `close` in the field Connection.
    pub closes: bool,
}

/// What the front of the bytes that have come is.
#[derive(Clone, Copy, Debug)]
pub enum Front {
    /// A head.
    Whole {
        /// What it says.
        parts: HeadParts,
        /// How many bytes it has, with the empty lines in front of it.
        size: usize,
    },
    /// No head has come yet, and fewer bytes than the longest head has.
    Part,
    /// No request stands there, whatever may follow.
    Bad,
}

/// How often a field stands.
#[derive(Clone, Copy, Debug)]
pub enum Named<'a> {
    /// Nowhere.
    Absent,
    /// Once, with this value.
    Once(&'a [u8]),
    /// More than once.
    Repeated,
}

// The field of this name, in letters of any case.
fn field_named<'a>(bytes: &'a [u8], headers: &[HeaderSpan], name: &[u8]) -> Named<'a>
    requires { All (IsHeaderWithin (length bytes.now)) headers.now }
    ensures { IsNamed result (values_named name.now (map (header_bytes bytes.now) headers.now)) }
{
    let mut named = Named::Absent;
    for header in headers {
        if eq_ignore_case(header.name.of(bytes), name) {
            named = one_more(named, header.value.of(bytes));
        }
    }
    named
}

// The same with one more field of the name.
fn one_more<'a>(named: Named<'a>, value: &'a [u8]) -> Named<'a>
    ensures { (values : List (List ℕ)) → IsNamed named.entry values → IsNamed result (values ++ value.now ∷ []) }
{
    match named {
        Named::Absent => Named::Once(value),
        Named::Once(_) => Named::Repeated,
        Named::Repeated => Named::Repeated,
    }
}

// The number that 1 to 10 digits write.
#[tactic(auto, unfolding(crate::specs::Heads::length_in))]
fn length_in(text: &[u8]) -> Option<u64>
    ensures { result ≡ length_in text.now }
{
    if text.is_empty() || text.len() > LENGTH_DIGITS {
        return None;
    }
    let (length, _) = digits_at(Radix::Ten, text.len(), text)?;
    Some(length)
}

// The caller's key.
fn key_in(bytes: &[u8], headers: &[HeaderSpan]) -> Option<Key>
    requires { All (IsHeaderWithin (length bytes.now)) headers.now }
    ensures { result ≡ key_in (map (header_bytes bytes.now) headers.now) }
{
    match field_named(bytes, headers, b"desk-key") {
        Named::Absent => Some(Key::new(b"")),
        Named::Once(text) => Some(Key::new(text)),
        Named::Repeated => None,
    }
}

// The length of the body.
fn body_length(bytes: &[u8], headers: &[HeaderSpan]) -> Option<u64>
    requires { All (IsHeaderWithin (length bytes.now)) headers.now }
    ensures { result ≡ body_length (values_named (codes "content-length") (map (header_bytes bytes.now) headers.now)) }
{
    match field_named(bytes, headers, b"content-length") {
        Named::Absent => Some(0),
        Named::Once(text) => length_in(text),
        Named::Repeated => None,
    }
}

// Whether no Transfer-Encoding stands there.
fn is_uncoded(bytes: &[u8], headers: &[HeaderSpan]) -> bool
    requires { All (IsHeaderWithin (length bytes.now)) headers.now }
    ensures { result ≡ is_some (uncoded (values_named (codes "transfer-encoding")
        (map (header_bytes bytes.now) headers.now))) }
{
    matches!(
        &field_named(bytes, headers, b"transfer-encoding"),
        Named::Absent
    )
}

// Whether a part of Connection is `close`.
#[tactic(auto, unfolding(http1::specs::Fields::known_fields))]
fn names_close(bytes: &[u8], headers: &[HeaderSpan]) -> bool
    requires { All (IsHeaderWithin (length bytes.now)) headers.now }
    ensures { result ≡ names_close (map (header_bytes bytes.now) headers.now) }
{
    KnownFields::from_spans(bytes, headers).close
}

// What a head says whose parts lie there in the bytes, where it keeps the rules.
#[tactic(auto, unfolding(crate::specs::Heads::said_of))]
fn said_of(
    routes: &Routes,
    bytes: &[u8],
    spans: &RequestSpans,
    headers: &[HeaderSpan],
) -> Option<HeadParts>
    requires method { IsWithin (length bytes.now) spans.now.method }
    requires path { IsWithin (length bytes.now) spans.now.path }
    requires headers { All (IsHeaderWithin (length bytes.now)) headers.now }
    ensures { result ≡ said_of (span_bytes bytes.now spans.now.method)
        (span_bytes bytes.now spans.now.path) spans.now.version
        (map (header_bytes bytes.now) headers.now) }
{
    if !is_uncoded(bytes, headers) {
        return None;
    }
    let key = key_in(bytes, headers)?;
    let length = body_length(bytes, headers)?;
    Some(HeadParts {
        key,
        asked: asked_of(routes, spans.method.of(bytes), spans.path.of(bytes)),
        length,
        closes: spans.version == 0 || names_close(bytes, headers),
    })
}

// What a head that was parsed says.
fn front_of(routes: &Routes, bytes: &[u8], spans: &RequestSpans, headers: &[HeaderSpan]) -> Front
    requires within { IsRequestWithin bytes.now headers.now spans.now }
    requires found { IsRequestOf bytes.now headers.now spans.now }
    requires few { length headers.now ≡ HEAD_FIELDS }
    ensures { ReadsFront bytes.now result }
{
    let (named, _) = headers.split_at(spans.headers);
    if spans.len > HEAD_BYTES {
        return Front::Bad;
    }
    match said_of(routes, bytes, spans, named) {
        Some(parts) => Front::Whole {
            parts,
            size: spans.len,
        },
        None => Front::Bad,
    }
}

/// Looks for a head at the front of the bytes that have come so far. It parses them once.
pub fn read_head(routes: &Routes, bytes: &[u8]) -> Front
    ensures front { ReadsFront bytes.now result }
    // After bytes that settle that no head comes, none is awaited.
    ensures unsettled { result ≡ Front.Part → MayBecomeRequest bytes.now }
{
    let mut headers = [EMPTY_HEADER_SPAN; HEAD_FIELDS];
    match parse_request(bytes, &mut headers) {
        Ok(Status::Complete(spans)) => front_of(routes, bytes, &spans, &headers),
        Ok(Status::Partial) if bytes.len() < HEAD_BYTES => Front::Part,
        Ok(Status::Partial) => Front::Bad,
        Err(_) => Front::Bad,
    }
}

/// What the front of the bytes is that have come so far, where those that had come before were looked at. They are
/// parsed where that can say more than the last parse did.
pub fn next_front(routes: &Routes, bytes: &[u8], before: &Looked) -> (Front, Looked)
    requires { (before.now.seen ≤ length bytes.now) × IsLooked (take before.now.seen bytes.now) before.now }
    ensures front { ReadsFront bytes.now result.0 }
    ensures looked { result.0 ≡ Front.Part → IsLooked bytes.now result.1 }
{
    let (_, fresh) = bytes.split_at(before.seen);
    let now = Looked {
        scan: scan_more(before.scan, fresh),
        seen: bytes.len(),
        parsed: before.parsed,
    };
    if !is_due(before.scan, &now, fresh) {
        return (Front::Part, now);
    }
    let looked = Looked {
        parsed: now.seen,
        ..now
    };
    (read_head(routes, bytes), looked)
}
