//! Acts, read from the bodies of requests.

ghost use Rattle.std.specs.Prelude.{◌≡◌, ℕ, ◌<◌, length, Ok, Err, IfOk};
ghost use Rattle.obs_record.specs.declared.rule.HeaderFault.{HeaderFault};
ghost use Rattle.act_model.specs.Acts.{act_of, IsRead};

use crate::request::Verb;
use act_bodies::{
    Attribute, BodyFault, Code, Enrol, Ids, Key, Number, Rank, read_attribute, read_code,
    read_designate, read_enrol, read_identify, read_number, read_opening, read_release,
    read_retract, read_separate, read_station, read_verdict,
};
use ades_psv::{PsvFault, read_psv};
use col80_format::split_batch;
use item_list::{Bytes, NoMemory};
use obs_record::{HeaderFault, Lines, Short};
use packed_names::{Designation, HalfMonth};
use station_tables::Kind;
use std::alloc::Global;
use std::error::Error;
use std::fmt;
use std::fmt::{Display, Formatter};

/// An act: what a request with the verb of an act asks to be done, read from its body.
#[derive(Debug, Drop)]
pub enum Act {
    /// To put a caller on the roster.
    Enrol {
        /// The key by which the caller will be known, 8 to 32 characters without a plus sign.
        key: Key,
        /// Who it is, 1 to 100 printable characters.
        name: Bytes,
        /// Whether it is an observer or an officer.
        role: Rank,
    },
    /// To enter a station row.
    Station {
        /// The observatory code.
        code: [u8; 3],
        /// The station's name, 1 to 100 printable characters.
        name: Bytes,
        /// The first day on which it serves, in days since 1970-01-01.
        from: i32,
        /// The last day on which it serves, not before the first.
        to: i32,
    },
    /// To enter a code row.
    Code {
        /// What the letter and the word name.
        kind: Kind,
        /// The letter of the 80-column format.
        letter: u8,
        /// The word of ADES, 1 to 11 characters.
        word: Short,
    },
    /// To take in the observation lines of a batch in the Minor Planet Center's 80-column format,
    /// each with its number and what it says or the first rule that it breaks.
    Submit80(Lines),
    /// The same of a batch of ADES 2017 in its PSV form.
    SubmitPsv(Lines),
    /// To make these tracklets an object with a new designation. They are 1 to 100 different ones.
    Designate(Ids),
    /// To add a tracklet to an object.
    Attribute {
        /// The tracklet's number.
        tracklet: u64,
        /// A designation of the object.
        to: Designation,
    },
    /// To take the tracklet with this number out of its object.
    Release(u64),
    /// To make two objects one.
    Identify {
        /// The designation by which both will be known.
        principal: Designation,
        /// The designation of the other object.
        secondary: Designation,
    },
    /// To make this secondary designation an object of its own again.
    Separate(Designation),
    /// To enter how well an object's orbit is known.
    Verdict {
        /// The principal designation of the object.
        object: Designation,
        /// The uncertainty parameter U of the Minor Planet Center, 0 to 9, the smaller the better.
        u: u8,
        /// At how many oppositions the object was observed, 1 to 255.
        oppositions: u8,
    },
    /// To number objects whose orbits are known well.
    Number {
        /// The first number to be given, 1 to 15,396,335.
        first: u32,
        /// How many numbers are to be given at most, 1 to 1,000.
        most: u32,
    },
    /// To retract the observation with this number, for good.
    Retract(u64),
    /// To take over a half-month in which designations were given elsewhere.
    Opening {
        /// The half-month.
        half: HalfMonth,
        /// How many designations were given in it, 1 to its limit.
        given: u32,
        /// The orders of those that become objects of this office: at most 100 different ones, from 1 to `given`.
        carried: Ids,
    },
}

/// Why no act was read.
#[derive(Clone, Copy, Debug, PartialEq, Eq)]
pub enum ActFault {
    /// The verb is that of no act, or the body isn't as the verb wants it.
    Unread,
    /// A batch in PSV form has this fault of its headers, in this line.
    Header {
        /// The fault.
        fault: HeaderFault,
        /// The line's number, counted from 1.
        line: u32,
    },
    /// Memory was refused.
    NoMemory,
}

impl Display for ActFault {
    fn fmt<W: fmt::Write>(&self, f: &mut Formatter<W>) -> fmt::Result {
        match self {
            ActFault::Header { fault, line } => write!(f, "{fault} in line {line}"),
            ActFault::Unread => f.pad("not an act, or not the body that the verb wants"),
            ActFault::NoMemory => f.pad("out of memory"),
        }
    }
}

impl Error for ActFault {}

impl From<NoMemory> for ActFault {
    ghost use Rattle.std.specs.Prelude.{◌≡◌};
    ghost use Rattle.act_model.specs.declared.act.ActFault.TheVariants as faults;

    ghost from_gives = { λ _ fault. fault ≡ faults.NoMemory };

    fn from(_: NoMemory) -> ActFault {
        ActFault::NoMemory
    }
}

impl From<BodyFault> for ActFault {
    ghost use Rattle.std.specs.Prelude.{◌≡◌};
    ghost use Rattle.act_model.specs.Acts.{fault_of_body};

    ghost from_gives = { λ found fault. fault ≡ fault_of_body found };

    fn from(found: BodyFault) -> ActFault {
        match found {
            BodyFault::Unread => ActFault::Unread,
            BodyFault::NoMemory => ActFault::NoMemory,
        }
    }
}

impl From<PsvFault> for ActFault {
    ghost use Rattle.std.specs.Prelude.{◌≡◌};
    ghost use Rattle.act_model.specs.Acts.{fault_of_psv};

    ghost from_gives = { λ found fault. fault ≡ fault_of_psv found };

    fn from(found: PsvFault) -> ActFault {
        match found {
            PsvFault::Header { fault, line } => ActFault::Header { fault, line },
            PsvFault::NoMemory => ActFault::NoMemory,
        }
    }
}

/// The act of a verb and a body of fewer than 4,294,967,295 bytes.
///
/// Bodies of officers' acts are JSON: an object with exactly the members of the verb. Every body is
/// one for `Submit80`: a line that breaks a rule is an observation line that says so, and a body
/// without observation lines has none. Answers `Unread` only for a verb that is no act and for a
/// body that isn't as the verb wants it, and `Header` only for a batch in PSV form with that fault of its
/// headers, the first. Takes memory.
///
/// # Errors
///
/// `Unread` only for a verb that is no act and for a body that isn't as the verb wants it, `Header` only for a batch
/// in PSV form with that fault of its headers, the first, and `NoMemory` where memory was refused.
#[tactic(auto, unfolding(crate::specs::Acts::act_of))]
pub fn read_act(alloc: Global, verb: Verb, body: &[u8]) -> Result<Act, ActFault>
    requires { length body.now < 4_294_967_295 }
    ensures act { IfOk result (λ act. act_of verb body.now ≡ Ok act) }
    ensures unread { result ≡ Err ActFault.Unread → act_of verb body.now ≡ Err ActFault.Unread }
    ensures header { (fault : HeaderFault) (line : ℕ) →
        result ≡ Err (ActFault.Header fault line) → act_of verb body.now ≡ Err (ActFault.Header fault line) }
    ensures read { IfOk result IsRead }
{
    Ok(match verb {
        Verb::Enrol => {
            let Enrol { key, name, role } = read_enrol(alloc, body)?;
            Act::Enrol { key, name, role }
        }
        Verb::Station => {
            let station = read_station(alloc, body)?;
            Act::Station {
                code: station.code,
                name: station.name,
                from: station.from,
                to: station.to,
            }
        }
        Verb::Code => {
            let Code { kind, letter, word } = read_code(alloc, body)?;
            Act::Code { kind, letter, word }
        }
        Verb::Submit80 => Act::Submit80(split_batch(alloc, body)?),
        Verb::SubmitPsv => Act::SubmitPsv(read_psv(alloc, body)?),
        Verb::Designate => Act::Designate(read_designate(alloc, body)?.tracklets),
        Verb::Attribute => {
            let Attribute { tracklet, to } = read_attribute(alloc, body)?;
            Act::Attribute { tracklet, to }
        }
        Verb::Release => Act::Release(read_release(alloc, body)?.tracklet),
        Verb::Identify => {
            let identify = read_identify(alloc, body)?;
            Act::Identify {
                principal: identify.principal,
                secondary: identify.secondary,
            }
        }
        Verb::Separate => Act::Separate(read_separate(alloc, body)?.secondary),
        Verb::Verdict => {
            let verdict = read_verdict(alloc, body)?;
            Act::Verdict {
                object: verdict.object,
                u: verdict.u,
                oppositions: verdict.oppositions,
            }
        }
        Verb::Number => {
            let Number { first, most } = read_number(alloc, body)?;
            Act::Number { first, most }
        }
        Verb::Retract => Act::Retract(read_retract(alloc, body)?.observation),
        Verb::Opening => {
            let opening = read_opening(alloc, body)?;
            Act::Opening {
                half: opening.half,
                given: opening.given,
                carried: opening.carried,
            }
        }
        _ => return Err(ActFault::Unread),
    })
}
