//! Reading the rows of a mirror, and writing their lines.

ghost use Rattle.std.specs.Prelude.{◌≡◌, ◌≢◌, ◌≤◌, IfOk, OnOk, OnErr, Err, flat_map};
ghost use Rattle.std.specs.List.{AllByRecursion};
ghost use Rattle.std.specs.Io.KnownBytes.{Appends};
ghost use Rattle.obs_time.specs.Dates.{IsObservedDay};
ghost use Rattle.call_log.specs.Counts.{Rises};
ghost use Rattle.desk_io.specs.Outside.{AppendsPart};
ghost use Rattle.command_ends.specs.Courses.{sink_words, change};
ghost use Rattle.command_ends.specs.declared.status.Status.{Status};
ghost use Rattle.mirror_store.specs.declared.mirror.MirrorErr.{MirrorErr};
ghost use Rattle.mirror_store.specs.Rows.{IsObjectRow, IsSightRow};
ghost use Rattle.mirror_store.specs.Words.{mirror_words};
ghost use Rattle.look_command.specs.Looks.{first_moment, object_line, sight_line, rows_text};
ghost use Rattle.look_command.specs.Ends.{AreSeen, Looks};
ghost use Rattle.look_command.specs.Promises.{KeepsLook};

use crate::lines::{object_line, sight_line};
use command_ends::Status;
use desk_io::{Failed, Sink, write_all};
use mirror_store::{Mirror, MirrorErr, ObjectRow, ObjectRows, SightRow, SightRows};
use obs_time::Instant;

/// The nanoseconds of a day.
const NS_PER_DAY: i64 = 86_400_000_000_000;

/// The first moment of a day, which is given as days since 1970-01-01.
fn first_moment(day: i32) -> Instant
    requires { IsObservedDay day }
    ensures { result ≡ first_moment day }
{
    Instant::new(i64::from(day) * NS_PER_DAY).unwrap()
}

/// Writes the lines of objects.
fn write_objects<K: Sink>(sink: &mut K, rows: &[ObjectRow]) -> Result<(), Failed>
    requires { AllByRecursion IsObjectRow rows.now }
    ensures whole { OnOk result (Appends (K.taken sink.old) (K.taken sink.new) (flat_map object_line rows.now)) }
    ensures part { OnErr result (AppendsPart (K.taken sink.old) (K.taken sink.new) (flat_map object_line rows.now)) }
    ensures counts { K.faults sink.old ≤ K.faults sink.new }
    ensures faultless { OnOk result (K.faults sink.new ≡ K.faults sink.old) }
    ensures cause { OnErr result (Rises (K.faults sink.old) (K.faults sink.new)) }
    ensures stays { K.is_open sink.new ≡ K.is_open sink.old }
{
    'rows: for row in rows {
        write_all(sink, object_line(row).as_slice())?;
    }
    Ok(())
}

/// Writes the lines of observations.
fn write_sights<K: Sink>(sink: &mut K, rows: &[SightRow]) -> Result<(), Failed>
    requires { AllByRecursion IsSightRow rows.now }
    ensures whole { OnOk result (Appends (K.taken sink.old) (K.taken sink.new) (flat_map sight_line rows.now)) }
    ensures part { OnErr result (AppendsPart (K.taken sink.old) (K.taken sink.new) (flat_map sight_line rows.now)) }
    ensures counts { K.faults sink.old ≤ K.faults sink.new }
    ensures faultless { OnOk result (K.faults sink.new ≡ K.faults sink.old) }
    ensures cause { OnErr result (Rises (K.faults sink.old) (K.faults sink.new)) }
    ensures stays { K.is_open sink.new ≡ K.is_open sink.old }
{
    'rows: for row in rows {
        write_all(sink, sight_line(row).as_slice())?;
    }
    Ok(())
}

/// Writes the lines of objects, and then those of observations.
fn write_rows<K: Sink>(
    sink: &mut K,
    objects: &[ObjectRow],
    sights: &[SightRow],
) -> Result<(), Failed>
    requires objects { AllByRecursion IsObjectRow objects.now }
    requires sights { AllByRecursion IsSightRow sights.now }
    ensures whole { OnOk result
        (Appends (K.taken sink.old) (K.taken sink.new) (rows_text objects.now sights.now)) }
    ensures part { OnErr result
        (AppendsPart (K.taken sink.old) (K.taken sink.new) (rows_text objects.now sights.now)) }
    ensures counts { K.faults sink.old ≤ K.faults sink.new }
    ensures faultless { OnOk result (K.faults sink.new ≡ K.faults sink.old) }
    ensures cause { OnErr result (Rises (K.faults sink.old) (K.faults sink.new)) }
    ensures stays { K.is_open sink.new ≡ K.is_open sink.old }
{
    write_objects(sink, objects)?;
    write_sights(sink, sights)
}

/// The rows that a mirror gives: its objects, and its observations of some time, by time.
#[derive(Drop)]
struct Seen {
    objects: ObjectRows,
    sights: SightRows,
}

/// The objects of a mirror, and its observations from the one moment on and before the other.
fn seen_in<M: Mirror>(mirror: &mut M, from: Instant, to: Instant) -> Result<Seen, MirrorErr>
    ensures seen { IfOk result (λ seen. AreSeen (M.told mirror.old) from to seen.objects seen.sights) }
    ensures kept { M.told mirror.new ≡ M.told mirror.old }
    ensures counts { M.faults mirror.old ≤ M.faults mirror.new }
    ensures cause { result ≡ Err MirrorErr.Failed → Rises (M.faults mirror.old) (M.faults mirror.new) }
    ensures faultless { result ≢ Err MirrorErr.Failed → M.faults mirror.new ≡ M.faults mirror.old }
{
    let objects = match mirror.objects() {
        Ok(objects) => objects,
        Err(err) => return Err(err),
    };
    match mirror.between(from, to) {
        Ok(sights) => Ok(Seen { objects, sights }),
        Err(err) => Err(err),
    }
}

/// Reads the rows of a mirror, and writes their lines.
fn look_all<K: Sink, M: Mirror>(from: Instant, to: Instant, sink: &mut K, mirror: &mut M) -> Status
    ensures looks { Looks (sink_words K.taken K.faults K.is_open) (M.told mirror.old) from to
        (change sink.old sink.new) result }
    ensures held { M.told mirror.new ≡ M.told mirror.old }
    ensures write_counts { K.faults sink.old ≤ K.faults sink.new }
    ensures write_cause { result ≡ Status.WriteFault → Rises (K.faults sink.old) (K.faults sink.new) }
    ensures write_faultless { (result ≡ Status.WriteFault → ⊥) → K.faults sink.new ≡ K.faults sink.old }
    ensures stays { K.is_open sink.new ≡ K.is_open sink.old }
    ensures mirror_counts { M.faults mirror.old ≤ M.faults mirror.new }
    ensures mirror_cause { result ≡ Status.MirrorFault → Rises (M.faults mirror.old) (M.faults mirror.new) }
    ensures mirror_faultless { (result ≡ Status.MirrorFault → ⊥) → M.faults mirror.new ≡ M.faults mirror.old }
{
    let seen = match seen_in(mirror, from, to) {
        Ok(seen) => seen,
        Err(MirrorErr::Failed) => return Status::MirrorFault,
        Err(MirrorErr::NoMemory) => return Status::NoMemory,
    };
    match write_rows(sink, seen.objects.as_slice(), seen.sights.as_slice()) {
        Ok(()) => Status::Done,
        Err(_) => Status::WriteFault,
    }
}

/// Writes what a mirror holds: a line for each object, `object P number N observations M`, and then a line for each
/// observation from the first moment of the day `from` on and before the first moment of the day `to`, by time, those
/// of one moment by id: `obs K object P T X Y C`, or `obs K isolated T X Y C`. Both days are days since 1970-01-01, of
/// the years 1800 to 2199. The mirror is read before anything is written, and each line is written by itself; nothing
/// but the mirror takes memory.
///
/// Ends with `Done`, `MirrorFault`, `WriteFault` or `NoMemory`.
pub fn look<K: Sink, M: Mirror>(from: i32, to: i32, sink: &mut K, mirror: &mut M) -> Status
    requires from { IsObservedDay from }
    requires to { IsObservedDay to }
    // What is promised at each end stands in `specs/Promises.antt`.
    ensures promises { KeepsLook (sink_words K.taken K.faults K.is_open) (mirror_words M.told M.faults) from to
        (change sink.old sink.new) (change mirror.old mirror.new) result }
{
    let start = first_moment(from);
    let end = first_moment(to);
    look_all(start, end, sink, mirror)
}
