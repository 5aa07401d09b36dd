//! The observation lines of a batch, as the office took them in.

ghost use Rattle.std.specs.Prelude.{◌≡◌, ◌≤◌, ◌<◌, ◌++◌, length, is_ok, Result, IfOk, OnOk, option_to_list};
ghost use Rattle.std.specs.Prelude.{slice_index_or, ◌∷◌, ◌+◌, drop};
ghost use Rattle.obs_record.specs.declared.line.Line.{Line as Line};
ghost use Rattle.obs_record.specs.declared.rule.RuleCode.{RuleCode as RuleCode};
ghost use Rattle.act_model.specs.declared.taken.Placing.{Placing as Placing};
ghost use Rattle.act_model.specs.declared.taken.Taken.{Taken};
ghost use Rattle.act_model.specs.BatchRules.{name_of};
ghost use Rattle.act_model.specs.Taken.{placed_by, taken_by, taken_with, accepted_in, fault_with, faults_in};

use crate::reply::{Fault, Faults};
use item_list::{ItemList, NoMemory};
use obs_record::{Line, Lines, RuleCode, Short, Sighting, TrackName};
use packed_names::Designation;
use std::alloc::Global;
use std::marker::Model;

/// An observation line of a batch, with what became of it, as contracts see it.
#[derive(Clone, Copy, Debug, PartialEq, Eq)]
pub struct Taken {
    /// The line's number in the batch, counted from 1.
    pub line: u32,
    /// The observation that it is, or the first rule that it breaks.
    pub found: Result<Placed, RuleCode>,
}

/// An observation that was accepted, with the tracklet that it is of, as contracts see it.
#[derive(Clone, Copy, Debug, PartialEq, Eq)]
pub struct Placed {
    /// What was observed.
    pub sighting: Sighting,
    /// The number of its tracklet, counted from 1 over all batches.
    pub track: u64,
    /// The designation in which its tracklet starts, or None where the tracklet starts isolated.
    pub home: Option<Designation>,
}

/// The name that an observation goes by: its number, else its designation, else its temporary designation, of which one
/// is there.
pub fn name_of(s: &Sighting) -> TrackName
    ensures { result ≡ name_of s.now }
{
    match (s.perm, s.prov, s.sub) {
        (Some(number), _, _) => TrackName::Number(number),
        (None, Some(designation), _) => TrackName::Designation(designation),
        (None, None, Some(short)) => TrackName::Sub(short),
        (None, None, None) => TrackName::Sub(Short::new(&[])),
    }
}

/// Where an accepted observation is filed.
#[derive(Clone, Copy, Debug, PartialEq, Eq)]
pub struct Placing {
    /// The number of its tracklet, counted from 1 over all batches.
    pub track: u64,
    /// The designation in which its tracklet starts, or None where the tracklet starts isolated.
    pub home: Option<Designation>,
}

/// An accepted observation where it stands in its batch, so that it isn't copied. Contracts see a `Placed`.
#[derive(Drop)]
pub struct PlacedLine<'a> {
    sighting: &'a Sighting,
    placing: Placing,
}

impl<'a> Model for PlacedLine<'a> {
    ghost use Rattle.act_model.specs.declared.taken.Placed.{Placed};

    ghost Value = { Placed };

    ghost view = { λ p. record {
      sighting = p.sighting.now;
      track = p.placing.track;
      home = p.placing.home;
    } };
}

impl<'a> PlacedLine<'a> {
    /// What was observed.
    #[inline]
    pub fn sighting(&self) -> &'a Sighting
        ensures { result.now ≡ self.now.sighting }
    {
        self.sighting
    }

    /// The number of its tracklet, counted from 1 over all batches.
    #[inline]
    pub fn track(&self) -> u64
        ensures { result ≡ self.now.track }
    {
        self.placing.track
    }

    /// The designation in which its tracklet starts, or None where the tracklet starts isolated.
    #[inline]
    pub fn home(&self) -> Option<Designation>
        ensures { result ≡ self.now.home }
    {
        self.placing.home
    }
}

/// An observation line of a batch, with what became of it. Contracts see a `Taken`.
#[derive(Drop)]
pub struct TakenLine<'a> {
    /// The line's number in the batch, counted from 1.
    pub line: u32,
    /// The observation that it is, or the first rule that it breaks.
    pub found: Result<PlacedLine<'a>, RuleCode>,
}

impl<'a> Model for TakenLine<'a> {
    ghost use Rattle.act_model.specs.declared.taken.Taken.{Taken};

    ghost Value = { Taken };

    ghost view = { λ t. record { line = t.line; found = t.found } };
}

/// The observation lines of a batch, each with what became of it. The lines stand as they were read, so that no
/// observation is copied before it is filed.
///
/// Contracts see the list of what became of each.
#[derive(Debug, Drop)]
pub struct TakenLines {
    lines: Lines,
    found: ItemList<Result<Placing, RuleCode>>,
    accepted: u64,
}

impl Model for TakenLines {
    ghost use Rattle.std.specs.Prelude.{◌≡◌, List};
    ghost use Rattle.act_model.specs.declared.taken.Taken.{Taken};
    ghost use Rattle.act_model.specs.Taken.{taken_with, accepted_in};

    ghost Value = { List Taken };

    ghost view = { λ t. taken_with t.lines t.found };

    ghost invariant = { λ t. t.accepted ≡ accepted_in (taken_with t.lines t.found) };
}

// Whether a line that was read so is accepted, with what was found of it.
#[inline]
fn is_accepted(read: &Result<Sighting, RuleCode>, found: &Result<Placing, RuleCode>) -> bool
    ensures { result ≡ is_ok (placed_by read.now found.now) }
{
    found.is_ok() && read.is_ok()
}

// How many lines are accepted, with what was found of each.
fn count(lines: &[Line], found: &[Result<Placing, RuleCode>]) -> u64
    ensures { result ≡ accepted_in (taken_with lines.now found.now) }
{
    let mut accepted = 0;
    for place in 0..lines.len().min(found.len()) {
        if is_accepted(&lines[place].read, &found[place]) {
            accepted += 1;
        }
    }
    accepted
}

impl TakenLines {
    /// Lines as they were read, with what was found of each, line by line: where its observation is filed, or the first
    /// rule that it breaks.
    pub fn new(lines: Lines, found: ItemList<Result<Placing, RuleCode>>) -> TakenLines
        ensures { result ≡ taken_with lines found }
    {
        let accepted = count(lines.as_slice(), found.as_slice());
        TakenLines {
            lines,
            found,
            accepted,
        }
    }

    /// How many lines there are.
    #[inline]
    pub fn len(&self) -> usize
        ensures { result ≡ length self.now }
    {
        (self.lines.as_slice().len()).min(self.found.as_slice().len())
    }

    /// How many of them are accepted. The others are refused, line by line.
    #[inline]
    pub fn accepted(&self) -> u64
        ensures count { result ≡ accepted_in self.now }
        ensures within { result ≤ length self.now }
    {
        self.accepted
    }

    /// The line at a place, counted from 0.
    #[inline]
    pub fn at(&self, place: usize) -> TakenLine<'_>
        requires { place < length self.now }
        ensures line { (d : Taken) → result ≡ slice_index_or self.now place d }
        ensures left { drop place self.now ≡ result ∷ drop (place + 1) self.now }
    {
        taken_at(self.lines.as_slice(), self.found.as_slice(), place)
    }
}

// A line that was read so, with what was found of it.
#[inline]
fn placed_by<'a>(
    read: &'a Result<Sighting, RuleCode>,
    found: &Result<Placing, RuleCode>,
) -> Result<PlacedLine<'a>, RuleCode>
    ensures { result ≡ placed_by read.now found.now }
{
    let placing = match found {
        Ok(placing) => *placing,
        Err(rule) => return Err(*rule),
    };
    match read {
        Ok(sighting) => Ok(PlacedLine { sighting, placing }),
        Err(rule) => Err(*rule),
    }
}

// The line at a place of those that were read, with what was found of it.
#[inline]
fn taken_at<'a>(
    lines: &'a [Line],
    found: &[Result<Placing, RuleCode>],
    place: usize,
) -> TakenLine<'a>
    requires lines { place < length lines.now }
    requires found { place < length found.now }
    ensures { (line : Line) (first : Result Placing RuleCode) →
        result ≡ taken_by (slice_index_or lines.now place line) (slice_index_or found.now place first) }
{
    let line = &lines[place];
    TakenLine {
        line: line.number,
        found: placed_by(&line.read, &found[place]),
    }
}

// A line's number with the rule that it breaks.
fn fault_in(taken: &TakenLine) -> Option<Fault>
    ensures { result ≡ fault_with taken.now.line taken.now.found }
{
    match &taken.found {
        Ok(_) => None,
        Err(rule) => Some(Fault {
            line: taken.line,
            rule: *rule,
        }),
    }
}

fn push_fault(faults: &mut Faults, fault: Option<Fault>) -> Result<(), NoMemory>
    ensures { OnOk result (faults.new ≡ faults.old ++ option_to_list fault) }
{
    match fault {
        Some(fault) => faults.push(fault),
        None => Ok(()),
    }
}

/// The lines that aren't accepted, each with the rule that it breaks first.
///
/// # Errors
///
/// Memory was refused.
pub fn faults_in(alloc: Global, lines: &TakenLines) -> Result<Faults, NoMemory>
    ensures { IfOk result (λ faults. faults ≡ faults_in lines.now) }
{
    let mut faults = ItemList::new(alloc);
    for place in 0..lines.len() {
        push_fault(&mut faults, fault_in(&lines.at(place)))?;
    }
    Ok(faults)
}
