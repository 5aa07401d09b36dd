//! The texts of answers. All of them are lines that end in a line feed.

ghost use Rattle.std.specs.Prelude.{◌≡◌, ◌+◌, ◌-◌, ◌<◌, ◌≤◌, ◌^◌, ◌++◌, ◌∷◌, [], length, decimal, codes, OnOk, IfOk};
ghost use Rattle.arrayvec.specs.ArrayString.{array_string_len};
ghost use Rattle.act_model.specs.Taken.{accepted_in, refused_in};
ghost use Rattle.act_model.specs.Texts.{receipt_line, caller_line, counts_line, accepted_line, count_line};
ghost use Rattle.act_model.specs.Texts.{refused_line, designation_text, packed_designation, object_line, order_line};
ghost use Rattle.act_model.specs.Texts.{object_lines, number_line, number_lines};
ghost use Rattle.act_model.specs.Replies.{line_answer, line_answers, observations_with, batch_answer, fault_lines};

use crate::deed::with_order;
use crate::reply::Fault;
use crate::taken::{TakenLine, TakenLines};
use arrayvec::ArrayString;
use item_list::{Bytes, NoMemory};
use itoa::Buffer;
use numbering_core::Numbering;
use obs_record::RuleCode;
use packed_names::{Designation, HalfMonth, Name, is_name, pack, print};
use std::alloc::Global;

/// As many bytes as the longest answer to a line has: three words, three numbers of twenty digits, and a line feed.
const LINE_BYTES: usize = 78;

// As many bytes as the receipt and the counts of the answer to a batch have as a rule.
const ANSWER_ROOM: usize = 64;

// As many bytes as the answer to a line has as a rule.
const LINE_ROOM: usize = 40;

/// The answer to a line while it is made. It is put to the others at once, since each piece that is put there costs a
/// question for room.
type LineText = ArrayString<LINE_BYTES>;

/// Writes a number in decimal digits.
///
/// # Errors
///
/// Memory was refused.
pub fn push_decimal(out: &mut Bytes, n: u64) -> Result<(), NoMemory>
    ensures { OnOk result (out.new ≡ out.old ++ decimal n) }
{
    let mut buffer = Buffer::new();
    out.extend_from_slice(buffer.format(n).as_bytes())
}

fn push_receipt_line(out: &mut Bytes, receipt: u64) -> Result<(), NoMemory>
    ensures { OnOk result (out.new ≡ out.old ++ receipt_line receipt) }
{
    out.extend_from_slice(b"receipt ")?;
    push_decimal(out, receipt)?;
    out.push(b'\n')
}

fn push_caller_line(out: &mut Bytes, caller: u64) -> Result<(), NoMemory>
    ensures { OnOk result (out.new ≡ out.old ++ caller_line caller) }
{
    out.extend_from_slice(b"caller ")?;
    push_decimal(out, caller)?;
    out.push(b'\n')
}

fn push_counts_line(out: &mut Bytes, accepted: u64, refused: u64) -> Result<(), NoMemory>
    ensures { OnOk result (out.new ≡ out.old ++ counts_line accepted refused) }
{
    out.extend_from_slice(b"accepted ")?;
    push_decimal(out, accepted)?;
    out.extend_from_slice(b" refused ")?;
    push_decimal(out, refused)?;
    out.push(b'\n')
}

/// Puts a number in decimal digits, of which there are twenty at most.
fn push_number(line: &mut LineText, n: u64)
    requires { array_string_len line.old + 20 ≤ 78 }
    ensures text { line.new.bytes ≡ line.old.bytes ++ decimal n }
    ensures len { array_string_len line.new ≤ array_string_len line.old + 20 }
{
    let mut buffer = Buffer::new();
    line.push_str(buffer.format(n));
}

fn accepted_line(number: u32, observation: u64, track: u64) -> LineText
    ensures { result.bytes ≡ accepted_line number observation track }
{
    let mut line = LineText::new();
    line.push_str("line ");
    push_number(&mut line, u64::from(number));
    line.push_str(" obs ");
    push_number(&mut line, observation);
    line.push_str(" track ");
    push_number(&mut line, track);
    line.push_str("\n");
    line
}

/// Writes a line of a tally: a name that ends in a blank, and the count.
pub(crate) fn push_count_line(out: &mut Bytes, name: &[u8], count: u64) -> Result<(), NoMemory>
    ensures { OnOk result (out.new ≡ out.old ++ count_line name.now count) }
{
    out.extend_from_slice(name)?;
    push_decimal(out, count)?;
    out.push(b'\n')
}

fn push_refused_line(out: &mut Bytes, number: u32, rule: RuleCode) -> Result<(), NoMemory>
    ensures { OnOk result (out.new ≡ out.old ++ refused_line number rule) }
{
    let mut line = LineText::new();
    line.push_str("line ");
    push_number(&mut line, u64::from(number));
    line.push_str(" refused ");
    out.extend_from_slice(line.as_bytes())?;
    out.extend_from_slice(rule.name())?;
    out.push(b'\n')
}

/// Writes the lines of a batch's faults.
pub(crate) fn push_fault_lines(out: &mut Bytes, faults: &[Fault]) -> Result<(), NoMemory>
    ensures { OnOk result (out.new ≡ out.old ++ fault_lines faults.now) }
{
    for fault in faults {
        push_refused_line(out, fault.line, fault.rule)?;
    }
    Ok(())
}

/// Writes the answer to a line, and says how many observations there are after it.
fn push_line_answer(out: &mut Bytes, before: u64, taken: &TakenLine) -> Result<u64, NoMemory>
    requires { before + 1 < 2 ^ 64 }
    ensures text { OnOk result (out.new ≡ out.old ++ line_answer before taken.now.line taken.now.found) }
    ensures count { IfOk result (λ after. after ≡ observations_with before taken.now.found) }
    ensures more { IfOk result (λ after. after ≤ before + 1) }
{
    match &taken.found {
        Ok(placed) => {
            let line = accepted_line(taken.line, before + 1, placed.track());
            out.extend_from_slice(line.as_bytes())?;
            Ok(before + 1)
        }
        Err(rule) => {
            push_refused_line(out, taken.line, *rule)?;
            Ok(before)
        }
    }
}

fn push_line_answers(out: &mut Bytes, lines: &TakenLines, before: u64) -> Result<(), NoMemory>
    requires { before + length lines.now < 2 ^ 64 }
    ensures { OnOk result (out.new ≡ out.old ++ line_answers lines.now before) }
{
    let mut observations = before;
    for place in 0..lines.len() {
        observations = push_line_answer(out, observations, &lines.at(place))?;
    }
    Ok(())
}

/// The answer to a batch of these lines that became the entry with this receipt, where the office had this many
/// observations before it: the receipt, how many lines were accepted and refused, and a line for each with the numbers
/// of its observation and its tracklet, or with the rule that it breaks. Observations and tracklets count from 1.
///
/// # Errors
///
/// Memory was refused.
#[tactic(auto, unfolding(crate::specs::Replies::batch_answer))]
pub fn batch_answer(
    alloc: Global,
    receipt: u64,
    before: u64,
    lines: &TakenLines,
) -> Result<Bytes, NoMemory>
    requires { before + length lines.now < 2 ^ 64 }
    ensures { IfOk result (λ text. text ≡ batch_answer receipt before lines.now) }
{
    let accepted = lines.accepted();
    let room = lines
        .len()
        .saturating_mul(LINE_ROOM)
        .saturating_add(ANSWER_ROOM);
    let mut out = Bytes::with_capacity(alloc, room)?;
    push_receipt_line(&mut out, receipt)?;
    push_counts_line(&mut out, accepted, lines.len() as u64 - accepted)?;
    push_line_answers(&mut out, lines, before)?;
    Ok(out)
}

/// The answer to an enrolment that became the entry with this receipt: the receipt, and the number of
/// the new caller.
///
/// # Errors
///
/// Memory was refused.
pub fn enrol_answer(alloc: Global, receipt: u64, caller: u64) -> Result<Bytes, NoMemory>
    ensures { IfOk result (λ text. text ≡ receipt_line receipt ++ caller_line caller) }
{
    let mut out = Bytes::new(alloc);
    push_receipt_line(&mut out, receipt)?;
    push_caller_line(&mut out, caller)?;
    Ok(out)
}

/// Writes the printed form of a designation, and no text for a value that is none.
///
/// # Errors
///
/// Memory was refused.
pub fn push_designation(out: &mut Bytes, d: Designation) -> Result<(), NoMemory>
    ensures { OnOk result (out.new ≡ out.old ++ designation_text d) }
{
    let name = Name::Designation(d);
    if is_name(name) {
        return out.extend_from_slice(print(name).as_slice());
    }
    Ok(())
}

/// Writes the packed form of a designation, and no text for a value that is none.
///
/// # Errors
///
/// Memory was refused.
pub fn push_packed(out: &mut Bytes, d: Designation) -> Result<(), NoMemory>
    ensures { OnOk result (out.new ≡ out.old ++ packed_designation d) }
{
    let name = Name::Designation(d);
    if is_name(name) {
        return out.extend_from_slice(pack(name).as_slice());
    }
    Ok(())
}

fn push_object_line(out: &mut Bytes, d: Designation) -> Result<(), NoMemory>
    ensures { OnOk result (out.new ≡ out.old ++ object_line d) }
{
    out.extend_from_slice(b"object ")?;
    push_designation(out, d)?;
    out.push(b' ')?;
    push_packed(out, d)?;
    out.push(b'\n')
}

// The same of the designation of a half-month that has this order. No half-month has one of 2^32 or more, which has no
// text in either form.
fn push_order_line(out: &mut Bytes, half: HalfMonth, order: u64) -> Result<(), NoMemory>
    ensures { OnOk result (out.new ≡ out.old ++ order_line half order) }
{
    if order > u64::from(u32::MAX) {
        return out.extend_from_slice(b"object  \n");
    }
    push_object_line(out, Designation::Provisional(with_order(half, order)))
}

fn push_object_lines(out: &mut Bytes, half: HalfMonth, orders: &[u64]) -> Result<(), NoMemory>
    ensures { OnOk result (out.new ≡ out.old ++ object_lines half orders.now) }
{
    for order in orders {
        push_order_line(out, half, *order)?;
    }
    Ok(())
}

fn push_number_line(out: &mut Bytes, n: Numbering) -> Result<(), NoMemory>
    ensures { OnOk result (out.new ≡ out.old ++ number_line n) }
{
    out.extend_from_slice(b"number ")?;
    push_decimal(out, u64::from(n.number.0))?;
    out.push(b' ')?;
    push_designation(out, n.designation)?;
    out.push(b'\n')
}

fn push_number_lines(out: &mut Bytes, numbered: &[Numbering]) -> Result<(), NoMemory>
    ensures { OnOk result (out.new ≡ out.old ++ number_lines numbered.now) }
{
    for n in numbered {
        push_number_line(out, *n)?;
    }
    Ok(())
}

/// The answer to an act by which an object got this designation and that became the entry with this receipt: the
/// receipt, and the designation in its printed and its packed form.
///
/// # Errors
///
/// Memory was refused.
pub fn object_answer(alloc: Global, receipt: u64, d: Designation) -> Result<Bytes, NoMemory>
    ensures { IfOk result (λ text. text ≡ receipt_line receipt ++ object_line d) }
{
    let mut out = Bytes::new(alloc);
    push_receipt_line(&mut out, receipt)?;
    push_object_line(&mut out, d)?;
    Ok(out)
}

/// The answer to an act by which a half-month was taken over and that became the entry with this receipt: the receipt,
/// and a line for each designation that is carried, in the order of the list, with its printed and its packed form.
///
/// # Errors
///
/// Memory was refused.
pub fn opening_answer(
    alloc: Global,
    receipt: u64,
    half: HalfMonth,
    carried: &[u64],
) -> Result<Bytes, NoMemory>
    ensures { IfOk result (λ text. text ≡ receipt_line receipt ++ object_lines half carried.now) }
{
    let mut out = Bytes::new(alloc);
    push_receipt_line(&mut out, receipt)?;
    push_object_lines(&mut out, half, carried)?;
    Ok(out)
}

/// The answer to an act by which objects got these numbers and that became the entry with this receipt: the receipt,
/// and a line for each object.
///
/// # Errors
///
/// Memory was refused.
pub fn numbers_answer(
    alloc: Global,
    receipt: u64,
    numbered: &[Numbering],
) -> Result<Bytes, NoMemory>
    ensures { IfOk result (λ text. text ≡ receipt_line receipt ++ number_lines numbered.now) }
{
    let mut out = Bytes::new(alloc);
    push_receipt_line(&mut out, receipt)?;
    push_number_lines(&mut out, numbered)?;
    Ok(out)
}

/// The answer to an act that became the entry with this receipt, where nothing more is said.
///
/// # Errors
///
/// Memory was refused.
pub fn receipt_answer(alloc: Global, receipt: u64) -> Result<Bytes, NoMemory>
    ensures { IfOk result (λ text. text ≡ receipt_line receipt) }
{
    let mut out = Bytes::new(alloc);
    push_receipt_line(&mut out, receipt)?;
    Ok(out)
}
