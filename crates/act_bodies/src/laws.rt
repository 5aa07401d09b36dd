//! Laws of bodies, each the contract of a function that does nothing.

ghost use Rattle.std.specs.Prelude.{◌≡◌, true, false, ℕ, List, Some};
ghost use Rattle.packed_names.specs.Ranges.{IsNumber};
ghost use Rattle.station_tables.specs.Letters.{IsLetterOf};
ghost use Rattle.act_bodies.specs.declared.code.Code.{Code};
ghost use Rattle.act_bodies.specs.declared.enrol.Enrol.{Enrol};
ghost use Rattle.act_bodies.specs.declared.number.Number.{Number};
ghost use Rattle.act_bodies.specs.declared.opening.Opening.{Opening};
ghost use Rattle.act_bodies.specs.declared.station.Station.{Station};
ghost use Rattle.act_bodies.specs.Bodies.{code_of, enrol_of, number_of_body, opening_of, station_of, IsOpening};
ghost use Rattle.act_bodies.specs.Keys.{key_text, begins_with_plus};
ghost use Rattle.act_bodies.specs.Members.{is_station_code};

/// The key of a caller whom a body enrols begins with no plus, so it is never the founding officer's.
pub fn enrol_keys_are_plain()
    ensures { (bytes : List ℕ) (enrol : Enrol) → enrol_of bytes ≡ Some enrol → begins_with_plus (key_text enrol.key)
        ≡ false }
{}

/// The first number for which a body asks is one that a minor planet can have.
pub fn first_numbers_are_numbers()
    ensures { (bytes : List ℕ) (number : Number) → number_of_body bytes ≡ Some number → IsNumber number.first }
{}

/// The letter that a body enters is printed, and is none of those of refused records where it stands for a mode.
pub fn letters_are_printed()
    ensures { (bytes : List ℕ) (code : Code) → code_of bytes ≡ Some code → IsLetterOf code.kind code.letter }
{}

/// The half-month that a body opens is one of the years 1925 to 2099. This many of its designations were given as it
/// can have, and those that are carried are different ones of them, at most 100.
pub fn openings_are_in_range()
    ensures { (bytes : List ℕ) (opening : Opening) → opening_of bytes ≡ Some opening → IsOpening opening }
{}

/// The code of a station that a body enters is 3 letters or digits.
pub fn stations_are_codes()
    ensures { (bytes : List ℕ) (station : Station) → station_of bytes ≡ Some station →
        is_station_code station.code ≡ true }
{}
