//! The workload's requests.

ghost use Rattle.std.specs.Prelude.{◌≡◌, ◌≤◌, ◌++◌, true, IfOk, OnOk};
ghost use Rattle.act_model.specs.Requests.{is_act};
ghost use Rattle.act_model.specs.Roster.{IsFounder};
ghost use Rattle.office_workload.specs.Lines.{designation_body, numbered};
ghost use Rattle.office_workload.specs.Workloads.{officer, moment, request_with, station_request, submission};
ghost use Rattle.office_workload.specs.Workloads.{designation};

use crate::lines::submission_body;
use act_model::{Body, Key, Request, Verb, push_decimal};
use item_list::{Bytes, NoMemory};
use obs_time::Instant;
use std::alloc::Global;

/// The body by which the station is entered.
const STATION: &[u8] =
    b"{\"code\":\"703\",\"from\":\"1998-01-01\",\"name\":\"Catalina\",\"to\":\"2199-12-31\"}";

/// The key of the founding officer, whose requests all of them are.
pub(crate) fn officer() -> Key
    ensures key { result ≡ officer }
    ensures founder { IsFounder result }
{
    Key::new(b"+workload-1")
}

/// When all of them come.
pub(crate) fn moment() -> Instant
    ensures { result ≡ moment }
{
    // 2025-01-01T00:00:00Z.
    Instant::new(1_735_689_600_000_000_000).unwrap()
}

fn request_with(number: u64, verb: Verb, body: Bytes) -> Request
    ensures { result ≡ request_with number verb body }
{
    Request {
        key: officer(),
        number: Some(number),
        verb,
        body: Body::Whole(body),
    }
}

/// The request by which the station is entered. It takes memory.
///
/// # Errors
///
/// Memory was refused.
pub(crate) fn station_request(alloc: Global) -> Result<Request, NoMemory>
    ensures { IfOk result (λ request. request ≡ station_request) }
{
    let body = Bytes::from_slice(alloc, STATION)?;
    Ok(request_with(1, Verb::Station, body))
}

/// The four lines of an object, counted from 1, with this number of the generator. It takes memory.
///
/// # Errors
///
/// Memory was refused.
pub(crate) fn submission(alloc: Global, i: u64, x: u64) -> Result<Request, NoMemory>
    requires first { 1 ≤ i }
    requires last { i ≤ 20000 }
    ensures { IfOk result (λ request. request ≡ submission i x) }
{
    let body = submission_body(alloc, i, x)?;
    Ok(request_with(2 * i, Verb::Submit80, body))
}

/// Writes words, and a number after them.
///
/// # Errors
///
/// Memory was refused.
#[tactic(auto, unfolding(crate::specs::Lines::numbered))]
pub(crate) fn push_numbered(out: &mut Bytes, words: &[u8], n: u64) -> Result<(), NoMemory>
    ensures { OnOk result (out.new ≡ out.old ++ numbered words.now n) }
{
    out.extend_from_slice(words)?;
    push_decimal(out, n)
}

#[tactic(auto, unfolding(crate::specs::Lines::designation_body))]
fn push_tracklets(out: &mut Bytes, i: u64) -> Result<(), NoMemory>
    requires first { 1 ≤ i }
    requires last { i ≤ 20000 }
    ensures { OnOk result (out.new ≡ out.old ++ designation_body i) }
{
    push_numbered(out, b"{\"tracklets\":[", 2 * i - 1)?;
    push_numbered(out, b",", 2 * i)?;
    out.extend_from_slice(b"]}")
}

/// The request that makes an object of its two tracklets. It takes memory.
///
/// # Errors
///
/// Memory was refused.
pub(crate) fn designation(alloc: Global, i: u64) -> Result<Request, NoMemory>
    requires first { 1 ≤ i }
    requires last { i ≤ 20000 }
    ensures { IfOk result (λ request. request ≡ designation i) }
{
    let mut body = Bytes::new(alloc);
    push_tracklets(&mut body, i)?;
    Ok(request_with(2 * i + 1, Verb::Designate, body))
}
