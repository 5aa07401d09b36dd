//! The plain form of the register: two lists that are walked at each question.

use item_list::NoMemory;
use numbering_core::{Numbering, Verdict};
use packed_names::{Designation, Number};
use std::alloc::Global;

#[derive(Drop)]
pub(super) struct Plain {
    verdicts: Vec<Verdict>,
    numbered: Vec<Numbering>,
}

impl Plain {
    pub(super) fn new(alloc: Global) -> Plain {
        Plain {
            verdicts: Vec::new(alloc),
            numbered: Vec::new(alloc),
        }
    }

    pub(super) fn set(&mut self, verdict: Verdict) -> Result<(), NoMemory> {
        self.void(verdict.principal);
        self.verdicts.push(verdict)?;
        Ok(())
    }

    pub(super) fn void(&mut self, p: Designation) {
        self.verdicts.retain(|verdict| verdict.principal != p);
    }

    pub(super) fn good(&self, p: Designation) -> bool {
        self.verdicts.iter().any(|verdict| {
            verdict.principal == p && verdict.u <= 2 && verdict.oppositions >= 4
        })
    }

    pub(super) fn take(
        &mut self,
        designation: Designation,
        number: Number,
    ) -> Result<(), NoMemory> {
        self.numbered.push(Numbering {
            designation,
            number,
        })?;
        Ok(())
    }

    pub(super) fn number_of(&self, d: Designation) -> Option<Number> {
        for numbering in &self.numbered {
            if numbering.designation == d {
                return Some(numbering.number);
            }
        }
        None
    }

    pub(super) fn named(&self, n: Number) -> Option<Designation> {
        for numbering in &self.numbered {
            if numbering.number.0 == n.0 {
                return Some(numbering.designation);
            }
        }
        None
    }
}
