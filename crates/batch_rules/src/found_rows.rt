//! The office's tables, as the lines of a batch look into them.

ghost use Rattle.std.specs.Prelude.{◌≡◌, true};
ghost use Rattle.obs_record.specs.declared.sighting.Sighting.{Sighting as Sighting};
ghost use Rattle.act_model.specs.Ruling.{is_in_row, station_serving};

use obs_record::{Coded, Sighting};
use obs_time::day;
use station_tables::{Kind, Serving, Tables};
use std::marker::Model;

/// The office's tables, and what was found in them last. Most lines of a batch give the letters or words of the line
/// before, which are then not looked for again.
#[derive(Drop)]
pub(crate) struct Rows<'a> {
    tables: &'a Tables,
    mode: Coded,
    band: Coded,
    catalogue: Coded,
}

impl<'a> Model for Rows<'a> {
    ghost use Rattle.std.specs.Prelude.{◌≡◌, true};
    ghost use Rattle.station_tables.specs.Rows.{TableRows};
    ghost use Rattle.station_tables.specs.declared.kind.Kind.TheVariants as kinds;
    ghost use Rattle.act_model.specs.Ruling.{is_in_row};

    ghost Value = { TableRows };

    ghost view = { λ r. r.tables.now };

    ghost invariant = { λ r.
        (is_in_row r.tables.now kinds.Mode r.mode ≡ true)
        × (is_in_row r.tables.now kinds.Band r.band ≡ true)
        × (is_in_row r.tables.now kinds.Catalogue r.catalogue ≡ true) };
}

// Whether two lines give the same. Where it says so they do.
#[inline(always)]
fn are_same(one: Coded, other: Coded) -> bool
    ensures { result ≡ true → one ≡ other }
{
    match (one, other) {
        (Coded::Nothing, Coded::Nothing) => true,
        (Coded::Letter(one), Coded::Letter(other)) => one == other,
        (Coded::Word(one), Coded::Word(other)) => one == other,
        _ => false,
    }
}

// Whether the letter or the word that a line gives, if it gives one, is in a row of the kind.
fn is_in_row(tables: &Tables, kind: Kind, coded: Coded) -> bool
    ensures { result ≡ is_in_row tables.now kind coded }
{
    match coded {
        Coded::Nothing => true,
        Coded::Letter(letter) => tables.word(kind, letter).is_some(),
        Coded::Word(word) => tables.letter(kind, word).is_some(),
    }
}

impl<'a> Rows<'a> {
    /// Those of the tables, of which nothing was found yet.
    pub(crate) fn new(tables: &'a Tables) -> Rows<'a>
        ensures { result ≡ tables.now }
    {
        Rows {
            tables,
            mode: Coded::Nothing,
            band: Coded::Nothing,
            catalogue: Coded::Nothing,
        }
    }

    // What was found last in rows of the kind.
    #[inline(always)]
    fn found(&self, kind: Kind) -> Coded
        ensures { is_in_row self.now kind result ≡ true }
    {
        match kind {
            Kind::Mode => self.mode,
            Kind::Band => self.band,
            Kind::Catalogue => self.catalogue,
        }
    }

    // Keeps what was found in a row of the kind.
    fn keep(&mut self, kind: Kind, coded: Coded)
        requires { is_in_row self.old kind coded ≡ true }
        ensures { self.new ≡ self.old }
    {
        match kind {
            Kind::Mode => self.mode = coded,
            Kind::Band => self.band = coded,
            Kind::Catalogue => self.catalogue = coded,
        }
    }

    // Whether it is in a row of the kind. Where it is, it is kept as found.
    #[inline(never)]
    fn look_for(&mut self, kind: Kind, coded: Coded) -> bool
        ensures has { result ≡ is_in_row self.old kind coded }
        ensures same { self.new ≡ self.old }
    {
        let is = is_in_row(self.tables, kind, coded);
        if is {
            self.keep(kind, coded);
        }
        is
    }

    /// Whether the letter or the word that a line gives, if it gives one, is in a row of the kind. It stands in line
    /// with its callers, which name the kind, so that nothing is left of it but the comparison with what was found
    /// last.
    #[inline(always)]
    pub(crate) fn have(&mut self, kind: Kind, coded: Coded) -> bool
        ensures has { result ≡ is_in_row self.old kind coded }
        ensures same { self.new ≡ self.old }
    {
        if are_same(coded, self.found(kind)) {
            return true;
        }
        self.look_for(kind, coded)
    }

    /// How the observation's station stands on the observation's day of UTC.
    pub(crate) fn station_serving(&self, s: &Sighting) -> Serving
        ensures { result ≡ station_serving self.now s.now }
    {
        self.tables.station(s.station, day(s.time))
    }
}
