//! The body of the act by which an officer enters a station.

ghost use Rattle.std.specs.Prelude.{◌≡◌, ◌≤ℤ◌, Some, None, IfOk, option_map};
ghost use Rattle.std.specs.List.{list_all};
ghost use Rattle.serde_json.specs.View.{view};
ghost use Rattle.act_bodies.specs.Members.{is_alphanumeric, is_station_code, station_code_in, day_in};
ghost use Rattle.act_bodies.specs.Bodies.{station_in, station_of};

use crate::fault::BodyFault;
use crate::members::{is_alphanumeric, name_in, object_of, text_in};
use item_list::Bytes;
use obs_time::read_date;
use serde_json::Value;
use std::alloc::Global;

/// A station that is to be entered in the office's table, with the days on which it serves.
#[derive(Debug, Drop)]
pub struct Station {
    /// The station's code, 3 letters and digits.
    pub code: [u8; 3],
    /// The station's name, 1 to 100 printable characters.
    pub name: Bytes,
    /// The first day on which it serves, as days from 1970-01-01.
    pub from: i32,
    /// The last day on which it serves, as days from 1970-01-01.
    pub to: i32,
}

/// Whether each byte is a letter or a digit.
fn are_alphanumeric(text: &[u8]) -> bool
    ensures { result ≡ list_all is_alphanumeric text.now }
{
    text.iter().all(|byte| is_alphanumeric(*byte))
}

/// Whether the text is a station's code.
fn is_station_code(text: &[u8]) -> bool
    ensures { result ≡ is_station_code text.now }
{
    text.len() == 3 && are_alphanumeric(text)
}

/// The station's code that a body names.
#[tactic(auto, unfolding(crate::specs::Members::station_code_in))]
fn station_code_in(value: &Value) -> Option<[u8; 3]>
    ensures { result ≡ station_code_in (view value.now) }
{
    let text = text_in("code", value)?;
    if is_station_code(text) {
        Some([text[0], text[1], text[2]])
    } else {
        None
    }
}

/// The day of a member that is a date, as days from 1970-01-01.
#[tactic(auto, unfolding(crate::specs::Members::day_in))]
fn day_in(name: &str, value: &Value) -> Option<i32>
    ensures { result ≡ day_in name.now (view value.now) }
{
    read_date(text_in(name, value)?).ok()
}

/// What the members of an object say.
#[tactic(auto, unfolding(crate::specs::Bodies::station_in))]
fn station_in(alloc: Global, value: &Value) -> Result<Station, BodyFault>
    ensures read { IfOk result (λ station. station_in (view value.now) ≡ Some station) }
    ensures unread { result ≡ Err BodyFault.Unread → station_in (view value.now) ≡ None }
    ensures forward { IfOk result (λ station. station.from ≤ℤ station.to) }
{
    let Some(code) = station_code_in(value) else {
        return Err(BodyFault::Unread);
    };
    let Some(name) = name_in(value) else {
        return Err(BodyFault::Unread);
    };
    let Some(from) = day_in("from", value) else {
        return Err(BodyFault::Unread);
    };
    let Some(to) = day_in("to", value) else {
        return Err(BodyFault::Unread);
    };
    if from > to {
        return Err(BodyFault::Unread);
    }
    match Bytes::from_slice(alloc, name) {
        Ok(name) => Ok(Station {
            code,
            name,
            from,
            to,
        }),
        Err(_) => Err(BodyFault::NoMemory),
    }
}

/// Reads the body of `station`: a JSON object of the members `code`, a string of 3 of A to Z, a to z, 0 to 9; `name`,
/// a string of 1 to 100 printable characters (bytes 32 to 126); and `from` and `to`, the first and the last day on
/// which the station serves, dates `YYYY-MM-DD` of the years 1800 to 2199, the first not after the last.
///
/// # Errors
///
/// `Unread` where the body is anything else; `NoMemory` where memory was refused.
#[tactic(auto, unfolding(crate::specs::Bodies::station_of))]
pub fn read_station(alloc: Global, body: &[u8]) -> Result<Station, BodyFault>
    ensures read { IfOk result (λ station. station_of body.now ≡ Some station) }
    ensures unread { result ≡ Err BodyFault.Unread → station_of body.now ≡ None }
    ensures forward { IfOk result (λ station. station.from ≤ℤ station.to) }
{
    let value = object_of(alloc, 4, body)?;
    station_in(alloc, &value)
}
