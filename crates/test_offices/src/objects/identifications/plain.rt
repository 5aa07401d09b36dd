//! The plain form of the links: a list that is walked at each question and at each change.

use identify_core::Link;
use item_list::NoMemory;
use packed_names::Designation;
use std::alloc::Global;

#[derive(Drop)]
pub(super) struct Plain {
    links: Vec<Link>,
}

impl Plain {
    pub(super) fn new(alloc: Global) -> Plain {
        Plain {
            links: Vec::new(alloc),
        }
    }

    pub(super) fn add(&mut self, d: Designation) -> Result<(), NoMemory> {
        self.links.push(Link {
            principal: d,
            member: d,
        })?;
        Ok(())
    }

    pub(super) fn principal(&self, d: Designation) -> Option<Designation> {
        for link in &self.links {
            if link.member == d {
                return Some(link.principal);
            }
        }
        None
    }

    pub(super) fn join(&mut self, p: Designation, s: Designation) {
        for link in self.links.as_mut_slice() {
            if link.principal == s {
                link.principal = p;
            }
        }
    }

    pub(super) fn part(&mut self, s: Designation) {
        for link in self.links.as_mut_slice() {
            if link.member == s {
                link.principal = s;
            }
        }
    }
}
