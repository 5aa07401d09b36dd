//! The plain form of the rows: a list of what came to them that is walked at each question.

use item_list::NoMemory;
use packed_names::{Designation, HalfMonth, Provisional};
use std::alloc::Global;

/// A half-month that was opened with a count, or a designation and the observation by which its object was discovered.
#[derive(Drop)]
enum Came {
    Opened(HalfMonth, u32),
    Took(Provisional, u64),
}

#[derive(Drop)]
pub(super) struct Plain {
    came: Vec<Came>,
}

impl Plain {
    pub(super) fn new(alloc: Global) -> Plain {
        Plain {
            came: Vec::new(alloc),
        }
    }

    pub(super) fn given(&self, asked: HalfMonth) -> u32 {
        let mut count: u32 = 0;
        for came in &self.came {
            match came {
                Came::Opened(half, given) => {
                    if *half == asked {
                        count = count.saturating_add(*given);
                    }
                }
                Came::Took(taken, _) => {
                    if taken.half == asked {
                        count = count.saturating_add(1);
                    }
                }
            }
        }
        count
    }

    pub(super) fn begun(&self, asked: HalfMonth) -> bool {
        for came in &self.came {
            let half = match came {
                Came::Opened(half, _) => *half,
                Came::Took(taken, _) => taken.half,
            };
            if half == asked {
                return true;
            }
        }
        false
    }

    pub(super) fn open(&mut self, half: HalfMonth, given: u32) -> Result<(), NoMemory> {
        self.came.push(Came::Opened(half, given))?;
        Ok(())
    }

    /// The order of the designation that is given.
    pub(super) fn take(&mut self, half: HalfMonth, discovery: u64) -> Result<u32, NoMemory> {
        let order = self.given(half).saturating_add(1);
        self.came
            .push(Came::Took(Provisional { half, order }, discovery))?;
        Ok(order)
    }

    pub(super) fn find(&self, d: Designation) -> Option<u64> {
        for came in &self.came {
            if let Came::Took(taken, discovery) = came {
                if d == Designation::Provisional(*taken) {
                    return Some(*discovery);
                }
            }
        }
        None
    }
}
