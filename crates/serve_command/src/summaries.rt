//! The two lines at the end.

ghost use Rattle.std.specs.Prelude.{◌≡◌, ◌+◌, ◌≤◌, ◌++◌, length, OnOk, OnErr, decimal};
ghost use Rattle.std.specs.Io.KnownBytes.{Appends};
ghost use Rattle.arrayvec.specs.ArrayVec.{array_vec_len};
ghost use Rattle.call_log.specs.Counts.{Rises};
ghost use Rattle.desk_io.specs.Outside.{AppendsPart};
ghost use Rattle.serve_command.specs.Summaries.{summary};

use arrayvec::ArrayVec;
use ascii_text::writing::put_decimal;
use desk_io::{Failed, Sink, write_all};

/// The most bytes that the two lines have: their words, their line feeds, and two numbers of at most 20 digits.
const SUMMARY_BYTES: usize = 62;

// A text after what stands in the lines so far.
fn put(lines: &mut ArrayVec<u8, SUMMARY_BYTES>, text: &[u8])
    requires { array_vec_len lines.old + length text.now ≤ SUMMARY_BYTES }
    ensures text { lines.new.items ≡ lines.old.items ++ text.now }
    ensures len { array_vec_len lines.new ≡ array_vec_len lines.old + length text.now }
{
    lines.try_extend_from_slice(text).unwrap();
}

// A number in decimal after it.
fn put_number(lines: &mut ArrayVec<u8, SUMMARY_BYTES>, n: u64)
    requires { array_vec_len lines.old + 20 ≤ SUMMARY_BYTES }
    ensures text { lines.new.items ≡ lines.old.items ++ decimal n }
    ensures len { array_vec_len lines.new ≤ array_vec_len lines.old + 20 }
{
    put_decimal(lines, n);
}

// The two lines.
fn summary(connections: u64, entries: u64) -> ArrayVec<u8, SUMMARY_BYTES>
    ensures { result.items ≡ summary connections entries }
{
    let mut lines = ArrayVec::new();
    put(&mut lines, b"connections ");
    put_number(&mut lines, connections);
    put(&mut lines, b"\nentries ");
    put_number(&mut lines, entries);
    put(&mut lines, b"\n");
    lines
}

/// Writes how many connections there were and how many entries the history has, a line each. It takes no memory.
pub(crate) fn write_summary<K: Sink>(
    sink: &mut K,
    connections: u64,
    entries: u64,
) -> Result<(), Failed>
    ensures whole { OnOk result (Appends (K.taken sink.old) (K.taken sink.new) (summary connections entries)) }
    ensures part { OnErr result (AppendsPart (K.taken sink.old) (K.taken sink.new) (summary connections entries)) }
    ensures counts { K.faults sink.old ≤ K.faults sink.new }
    ensures faultless { OnOk result (K.faults sink.new ≡ K.faults sink.old) }
    ensures cause { OnErr result (Rises (K.faults sink.old) (K.faults sink.new)) }
    ensures stays { K.is_open sink.new ≡ K.is_open sink.old }
{
    let lines = summary(connections, entries);
    write_all(sink, lines.as_slice())
}
