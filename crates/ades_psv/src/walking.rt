//! The lines of a batch, read one after another.

ghost use Rattle.std.specs.Prelude.{◌≡◌, ◌+◌, ◌<◌, ◌≤◌, List, [], length, take, IfOk, OnOk};
ghost use Rattle.std.specs.Str.Lines.{lines};
ghost use Rattle.text_lines.specs.Pieces.{unfinished};
ghost use Rattle.obs_record.specs.declared.line.Line.{Line as SeenLine};
ghost use Rattle.ades_psv.specs.Batch.{ended, AreInRange};
ghost use Rattle.ades_psv.specs.Feeding.{progress_of, read_lines, read_on};
ghost use Rattle.ades_psv.specs.Walking.{Gives, line_read};

use crate::fault::PsvFault;
use crate::fields::cut_fields;
use crate::header::{Place, Step, step_at};
use crate::reading::read_fields;
use obs_record::{HeaderFault, Line, Lines};
use std::alloc::Global;
use text_lines::laws;
use text_lines::lines::next_complete;

/// How far a batch was read.
#[derive(Debug, Drop)]
pub(crate) struct Reached {
    /// Where the next line stands.
    pub(crate) place: Place,
    /// How many lines were read.
    pub(crate) count: u32,
    /// The data lines among them, with their readings.
    pub(crate) found: Lines,
}

impl Reached {
    /// Reads one more line. Takes memory.
    pub(crate) fn read_line(&mut self, alloc: Global, line: &[u8]) -> Result<(), PsvFault>
        requires { self.old.count < 4294967295 }
        ensures exact { Gives (λ _. progress_of self.new []) (line_read (progress_of self.old []) line.now) result }
        ensures count { OnOk result (self.new.count ≡ self.old.count + 1) }
        ensures kept { take (length self.old.found) self.new.found ≡ self.old.found }
        ensures range { AreInRange self.old.found → AreInRange self.new.found }
    {
        let number = self.count + 1;
        self.count = number;
        match step_at(alloc, &self.place, line)? {
            Step::On(place) => {
                self.place = place;
                Ok(())
            }
            Step::Data(columns) => {
                let read = read_fields(&cut_fields(&columns, line));
                self.found.push(Line { number, read })?;
                Ok(())
            }
            Step::Fault(fault) => Err(PsvFault::Header {
                fault,
                line: number,
            }),
        }
    }

    /// Reads the lines of a text that line feeds end; what stands after the last line feed is left. Takes memory.
    #[tactic(auto, using(crate::proofs::Walks::read_uncut))]
    pub(crate) fn read_complete<'a>(
        &mut self,
        alloc: Global,
        text: &'a [u8],
    ) -> Result<&'a [u8], PsvFault>
        requires { self.old.count + length text.now ≤ 4294967295 }
        ensures exact { Gives (λ rest. progress_of self.new rest.now) (read_on (progress_of self.old []) text.now)
            result }
        ensures rest { IfOk result (λ rest. rest.now ≡ unfinished text.now) }
        ensures few { IfOk result (λ rest. self.new.count + length rest.now ≤ self.old.count + length text.now) }
        ensures kept { take (length self.old.found) self.new.found ≡ self.old.found }
        ensures range { AreInRange self.old.found → AreInRange self.new.found }
    {
        let mut rest = text;
        'lines: while let Some((line, behind)) = next_complete(rest) {
            self.read_line(alloc, line)?;
            rest = behind;
        }
        Ok(rest)
    }

    /// Reads the last line, which no line feed ends; there is none where it is empty. Takes memory.
    #[tactic(auto, using(crate::proofs::Walks::read_none))]
    pub(crate) fn read_last(&mut self, alloc: Global, line: &[u8]) -> Result<(), PsvFault>
        requires alone { unfinished line.now ≡ line.now }
        requires room { self.old.count < 4294967295 }
        ensures exact { Gives (λ _. progress_of self.new []) (read_lines (progress_of self.old []) (lines line.now) [])
            result }
        ensures range { AreInRange self.old.found → AreInRange self.new.found }
    {
        laws::lines();
        if line.is_empty() {
            return Ok(());
        }
        self.read_line(alloc, line)
    }
}

/// The fault of a batch without a faulty line that ends in this place, its last line having this number.
pub(crate) fn ended(place: &Place, last: u32) -> Result<(), PsvFault>
    ensures { (found : List SeenLine) → Gives (λ _. found) (ended last (place.now, found)) result }
{
    match place {
        Place::Opening => Err(PsvFault::Header {
            fault: HeaderFault::H1,
            line: 1,
        }),
        Place::Header => Err(PsvFault::Header {
            fault: HeaderFault::H2,
            line: last,
        }),
        Place::Listing(_) => Ok(()),
    }
}
