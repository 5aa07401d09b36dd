//! The rows of a mirror.

use item_list::ItemList;
use obs_record::Short;
use packed_names::Label;

/// An object of the catalogue.
#[derive(Clone, Copy, Debug, PartialEq, Eq)]
pub struct ObjectRow {
    /// Where the object stands in the catalogue, counted from 1.
    pub place: u32,
    /// Its principal designation, as it is printed.
    pub principal: Label,
    /// Its number, 1 to 15,396,335, or 0 where it has none.
    pub number: u32,
    /// How many live observations it has.
    pub observations: u32,
}

/// An observation that stands: one that wasn't retracted.
#[derive(Clone, Copy, Debug, PartialEq, Eq)]
pub struct SightRow {
    /// Its number, counted from 1 over all accepted observations, retracted ones included.
    pub id: u32,
    /// The principal designation of its object, as it is printed; empty where its tracklet is isolated.
    pub object: Label,
    /// When it was observed, in nanoseconds of UTC since 1970-01-01T00:00:00, negative before.
    pub time: i64,
    /// The right ascension, 0 to below 360 degrees, in units of 1/9,000,000,000,000 degree.
    pub ra: i64,
    /// The declination, -90 to 90 degrees, in the same units.
    pub dec: i64,
    /// The code of the station that observed: 3 letters or digits.
    pub station: Short,
}

/// Objects, in the order of their places.
pub type ObjectRows = ItemList<ObjectRow>;

/// Observations.
pub type SightRows = ItemList<SightRow>;

/// The two lists of a mirror.
#[derive(Debug, Drop)]
pub struct MirrorRows {
    /// The objects by place.
    pub objects: ObjectRows,
    /// The observations by id.
    pub sights: SightRows,
}
