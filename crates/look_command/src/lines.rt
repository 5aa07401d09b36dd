//! The lines of a mirror's rows. They take no memory.

ghost use Rattle.std.specs.Prelude.{◌≡◌, ◌≤◌, ◌+◌, ◌++◌, length, nat_abs, decimal};
ghost use Rattle.arrayvec.specs.ArrayVec.{array_vec_len};
ghost use Rattle.act_model.specs.QueryTexts.{short_text};
ghost use Rattle.mirror_store.specs.Rows.{IsObjectRow, IsSightRow};
ghost use Rattle.look_command.specs.Looks.{label_text, object_line, row_number, row_object, row_position, sight_line};

use angle_fixed::{Dec, Ra, write_dec_degrees, write_ra_degrees};
use arrayvec::ArrayVec;
use ascii_text::blanks::trimmed;
use itoa::Buffer;
use mirror_store::{ObjectRow, SightRow};
use obs_record::Short;
use obs_time::{Instant, write_iso};
use packed_names::Label;

/// Room for a line: an object's has at most 63 bytes, an observation's at most 105.
const LINE_BYTES: usize = 128;

/// A line, with its line feed.
pub type Line = ArrayVec<u8, LINE_BYTES>;

/// Puts a text at the end of a line.
fn put(line: &mut Line, text: &[u8])
    requires { array_vec_len line.old + length text.now ≤ 128 }
    ensures text { line.new.items ≡ line.old.items ++ text.now }
    ensures len { array_vec_len line.new ≡ array_vec_len line.old + length text.now }
{
    line.try_extend_from_slice(text).unwrap();
}

/// Puts a number of a row at the end of a line.
fn put_decimal(line: &mut Line, n: u32)
    requires { array_vec_len line.old + 10 ≤ 128 }
    ensures text { line.new.items ≡ line.old.items ++ decimal n }
    ensures len { array_vec_len line.new ≤ array_vec_len line.old + 10 }
{
    let mut buffer = Buffer::new();
    put(line, buffer.format(n).as_bytes());
}

/// Puts the number of an object at the end of a line.
fn put_number(line: &mut Line, number: u32)
    requires { array_vec_len line.old + 10 ≤ 128 }
    ensures text { line.new.items ≡ line.old.items ++ row_number number }
    ensures len { array_vec_len line.new ≤ array_vec_len line.old + 10 }
{
    if number == 0 {
        put(line, b"none");
    } else {
        put_decimal(line, number);
    }
}

/// The characters of a label.
fn text_of(label: &Label) -> &[u8]
    requires { label.now.len ≤ 13 }
    ensures text { result.now ≡ label_text label.now }
    ensures within { length result.now ≤ 13 }
{
    &label.bytes[..usize::from(label.len)]
}

/// `object P number N observations M`, with a line feed at the end.
#[tactic(auto, unfolding(crate::specs::Looks::object_line))]
pub fn object_line(row: &ObjectRow) -> Line
    requires { IsObjectRow row.now }
    ensures { result.items ≡ object_line row.now }
{
    let mut line = Line::new();
    put(&mut line, b"object ");
    put(&mut line, text_of(&row.principal));
    put(&mut line, b" number ");
    put_number(&mut line, row.number);
    put(&mut line, b" observations ");
    put_decimal(&mut line, row.observations);
    line.push(b'\n');
    line
}

/// Puts the name that an observation has at the end of a line.
fn put_object(line: &mut Line, label: &Label)
    requires label { label.now.len ≤ 13 }
    requires room { array_vec_len line.old + 20 ≤ 128 }
    ensures text { line.new.items ≡ line.old.items ++ row_object label.now }
    ensures len { array_vec_len line.new ≤ array_vec_len line.old + 20 }
{
    if label.len == 0 {
        put(line, b"isolated");
    } else {
        put(line, b"object ");
        put(line, text_of(label));
    }
}

/// When an observation was made.
fn time_of(row: &SightRow) -> Instant
    requires { IsSightRow row.now }
    ensures { result ≡ row.now.time }
{
    Instant::new(row.time).unwrap()
}

/// The right ascension of an observation.
fn ra_of(row: &SightRow) -> Ra
    requires { IsSightRow row.now }
    ensures { result ≡ nat_abs row.now.ra }
{
    Ra::new(row.ra).unwrap()
}

/// The declination of an observation.
fn dec_of(row: &SightRow) -> Dec
    requires { IsSightRow row.now }
    ensures { result ≡ row.now.dec }
{
    Dec::new(row.dec).unwrap()
}

/// Puts moment and angles at the end of a line.
fn put_position(line: &mut Line, row: &SightRow)
    requires row { IsSightRow row.now }
    requires room { array_vec_len line.old + 64 ≤ 128 }
    ensures text { line.new.items ≡ line.old.items ++ row_position row.now }
    ensures len { array_vec_len line.new ≤ array_vec_len line.old + 64 }
{
    put(line, &write_iso(time_of(row)));
    line.push(b' ');
    put(line, trimmed(&write_ra_degrees(ra_of(row))));
    line.push(b' ');
    put(line, &write_dec_degrees(dec_of(row)));
}

/// Puts the code of a station at the end of a line.
fn put_station(line: &mut Line, station: Short)
    requires station { station.len ≤ 12 }
    requires room { array_vec_len line.old + 12 ≤ 128 }
    ensures text { line.new.items ≡ line.old.items ++ short_text station }
    ensures len { array_vec_len line.new ≤ array_vec_len line.old + 12 }
{
    put(line, &station.bytes[..usize::from(station.len)]);
}

/// `obs K object P T X Y C`, or `obs K isolated T X Y C`, with a line feed at the end.
#[tactic(auto, unfolding(crate::specs::Looks::sight_line))]
pub fn sight_line(row: &SightRow) -> Line
    requires { IsSightRow row.now }
    ensures { result.items ≡ sight_line row.now }
{
    let mut line = Line::new();
    put(&mut line, b"obs ");
    put_decimal(&mut line, row.id);
    line.push(b' ');
    put_object(&mut line, &row.object);
    line.push(b' ');
    put_position(&mut line, row);
    line.push(b' ');
    put_station(&mut line, row.station);
    line.push(b'\n');
    line
}
