//! Queries, read from the bodies of requests.

ghost use Rattle.std.specs.Prelude.{◌≡◌, IfSome};
ghost use Rattle.packed_names.specs.Ranges.{IsHalfMonth};
ghost use Rattle.act_bodies.specs.Members.{designation_of, half_month_of};
ghost use Rattle.act_model.specs.Queries.{counted_by, if_empty, name_by, query_of, IsReadQuery};

use crate::request::Verb;
use ascii_text::reading::number_at;
use packed_names::{Designation, HalfMonth, Name, read, read_half, unpack};

/// A query: what a request with the verb of a query asks for, read from its body.
#[derive(Clone, Copy, Debug, PartialEq, Eq)]
pub enum Query {
    /// The answer that the caller's act with this number was given.
    Receipt(u64),
    /// How many entries the office has, and how many observations stand in each place.
    Tally,
    /// The object that this designation belongs to: its principal, its number, its designations and its live
    /// observations.
    Object(Designation),
    /// The tracklet with this number: its name, its home and its observations.
    Tracklet(u64),
    /// The isolated tracklets.
    Isolated,
    /// How many designations were given in this half-month, and which one is next.
    HalfMonth(HalfMonth),
    /// The two forms of this name, and the principal designation of its object.
    Name(Name),
    /// The catalogue: the tally, and every live observation as a line of 80 columns, in its place.
    Catalogue,
}

// The number that a text of 1 to 18 digits without a leading zero spells.
fn counted_by(text: &[u8]) -> Option<u64>
    ensures { result ≡ counted_by text.now }
{
    let (number, rest) = number_at(18, text)?;
    if number > 0 && rest.is_empty() {
        Some(number)
    } else {
        None
    }
}

// The designation whose printed form the text is.
#[tactic(auto, unfolding(act_bodies::specs::Members::designation_of))]
fn designation_by(text: &[u8]) -> Option<Designation>
    ensures { result ≡ designation_of text.now }
{
    match read(text) {
        Ok(Name::Designation(designation)) => Some(designation),
        _ => None,
    }
}

// The half-month whose printed form the text is.
#[tactic(auto, unfolding(act_bodies::specs::Members::half_month_of))]
fn half_month_by(text: &[u8]) -> Option<HalfMonth>
    ensures half { result ≡ half_month_of text.now }
    ensures range { IfSome result IsHalfMonth }
{
    read_half(text).ok()
}

// The name that a text spells, printed or else packed.
fn name_by(text: &[u8]) -> Option<Name>
    ensures { result ≡ name_by text.now }
{
    match read(text) {
        Ok(name) => Some(name),
        Err(_) => unpack(text).ok(),
    }
}

// The query, where the body is empty.
fn if_empty(query: Query, body: &[u8]) -> Option<Query>
    ensures { result ≡ if_empty query body.now }
{
    if body.is_empty() { Some(query) } else { None }
}

/// The query of a verb and a body. None exactly where the body isn't as the verb wants it, and for a verb that is that
/// of no query.
///
/// The body of `receipt` and of `tracklet` is a number of 1 to 18 digits without a leading zero, that of `object` a
/// printed designation, that of `halfmonth` a half-month such as `2024 E`, and that of `name` a number or a
/// designation, printed or packed. That of `tally`, of `isolated` and of `catalogue` is empty.
#[tactic(auto, unfolding(crate::specs::Queries::query_of))]
pub fn read_query(verb: Verb, body: &[u8]) -> Option<Query>
    ensures query { result ≡ query_of verb body.now }
    ensures read { IfSome result IsReadQuery }
{
    match verb {
        Verb::Receipt => counted_by(body).map(Query::Receipt),
        Verb::Tally => if_empty(Query::Tally, body),
        Verb::Object => designation_by(body).map(Query::Object),
        Verb::Tracklet => counted_by(body).map(Query::Tracklet),
        Verb::Isolated => if_empty(Query::Isolated, body),
        Verb::HalfMonth => half_month_by(body).map(Query::HalfMonth),
        Verb::Name => name_by(body).map(Query::Name),
        Verb::Catalogue => if_empty(Query::Catalogue, body),
        _ => None,
    }
}
