//! The bodies of the workload's requests.

ghost use Rattle.std.specs.Prelude.{◌≡◌, ◌+◌, ◌*◌, ◌^◌, ◌<◌, ◌≤◌, ◌++◌, length, OnOk, IfOk};
ghost use Rattle.arrayvec.specs.ArrayVec.{array_vec_len};
ghost use Rattle.office_workload.specs.Lines.{date_text, sexagesimal, right_ascension, declination, line_text};
ghost use Rattle.office_workload.specs.Lines.{first_time, submission_body, designation_body};

use arrayvec::ArrayVec;
use ascii_text::digits::Radix;
use ascii_text::writing::put_digits;
use item_list::{Bytes, NoMemory};
use std::alloc::Global;

/// How many bytes a line has, with its line feed.
const LINE_BYTES: usize = 81;

/// A line that is being written.
type Line = ArrayVec<u8, LINE_BYTES>;

fn put(out: &mut Line, text: &[u8])
    requires { array_vec_len out.old + length text.now ≤ 81 }
    ensures text { out.new.items ≡ out.old.items ++ text.now }
    ensures len { array_vec_len out.new ≡ array_vec_len out.old + length text.now }
{
    out.try_extend_from_slice(text).unwrap();
}

/// A moment of January 2024, in ten-thousandths of a day.
#[tactic(auto, unfolding(crate::specs::Lines::date_text))]
fn put_date(out: &mut Line, time: u64)
    requires room { array_vec_len out.old + 17 ≤ 81 }
    requires within { time < 300000 }
    ensures text { out.new.items ≡ out.old.items ++ date_text time }
    ensures len { array_vec_len out.new ≡ array_vec_len out.old + 17 }
{
    put(out, b"2024 01 ");
    put_digits(out, Radix::Ten, 2, 1 + time / 10_000);
    out.push(b'.');
    put_digits(out, Radix::Ten, 4, time % 10_000);
    put(out, b"  ");
}

/// Hours or degrees, minutes and seconds with two or three decimals, in units of the last one.
#[tactic(auto, unfolding(crate::specs::Lines::sexagesimal))]
fn put_sexagesimal(out: &mut Line, decimals: usize, value: u64)
    requires room { array_vec_len out.old + decimals + 9 ≤ 81 }
    requires decimals { decimals ≤ 3 }
    requires within { value < 360000 * 10 ^ decimals }
    ensures text { out.new.items ≡ out.old.items ++ sexagesimal decimals value }
    ensures len { array_vec_len out.new ≡ array_vec_len out.old + decimals + 9 }
{
    let unit = 10u64.pow(decimals as u32);
    let seconds = value / unit;
    put_digits(out, Radix::Ten, 2, seconds / 3_600);
    out.push(b' ');
    put_digits(out, Radix::Ten, 2, seconds / 60 % 60);
    out.push(b' ');
    put_digits(out, Radix::Ten, 2, seconds % 60);
    out.push(b'.');
    put_digits(out, Radix::Ten, decimals, value % unit);
}

/// A line of an object with this number, which counts from 1.
#[tactic(auto, unfolding(crate::specs::Lines::line_text))]
fn line_text(i: u64, letter: u8, time: u64, x: u64) -> Line
    requires object { i ≤ 20000 }
    requires time { time < 300000 }
    ensures { result.items ≡ line_text i letter time x }
{
    let mut out = ArrayVec::new();
    put(&mut out, b"     W");
    put_digits(&mut out, Radix::Ten, 5, i);
    out.push(letter);
    put(&mut out, b"   ");
    put_date(&mut out, time);
    put_sexagesimal(&mut out, 3, 4_096 * i + x % 4_096);
    out.push(b'+');
    put_sexagesimal(&mut out, 2, x / 4_096 % 28_800_000);
    put(&mut out, b"                     703\n");
    out
}

fn push_line(out: &mut Bytes, i: u64, letter: u8, time: u64, x: u64) -> Result<(), NoMemory>
    requires object { i ≤ 20000 }
    requires time { time < 300000 }
    ensures { OnOk result (out.new ≡ out.old ++ line_text i letter time x) }
{
    out.extend_from_slice(line_text(i, letter, time, x).as_slice())
}

#[tactic(auto, unfolding(crate::specs::Lines::submission_body))]
fn push_lines(out: &mut Bytes, i: u64, x: u64) -> Result<(), NoMemory>
    requires first { 1 ≤ i }
    requires last { i ≤ 20000 }
    ensures { OnOk result (out.new ≡ out.old ++ submission_body i x) }
{
    let time = 4 * (i - 1);
    push_line(out, i, b'a', time, x)?;
    push_line(out, i, b'a', time + 50, x)?;
    push_line(out, i, b'b', time + 5_000, x)?;
    push_line(out, i, b'b', time + 5_050, x)
}

/// The four lines of an object, counted from 1, with this number of the generator. It takes memory.
///
/// # Errors
///
/// Memory was refused.
pub(crate) fn submission_body(alloc: Global, i: u64, x: u64) -> Result<Bytes, NoMemory>
    requires first { 1 ≤ i }
    requires last { i ≤ 20000 }
    ensures { IfOk result (λ body. body ≡ submission_body i x) }
{
    let mut out = Bytes::with_capacity(alloc, 4 * LINE_BYTES)?;
    push_lines(&mut out, i, x)?;
    Ok(out)
}
