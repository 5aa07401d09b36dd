//! The catalogue, page by page.

ghost use Rattle.std.specs.Prelude.{◌≡◌, ◌⊎◌, ◌≤◌, List, [], ◌++◌, length, take, drop, min, true, is_ok};
ghost use Rattle.std.specs.Prelude.{IfOk, OnOk, OnErr, IsTrue};
ghost use Rattle.act_model.specs.declared.entry.Entry.{Entry};
ghost use Rattle.act_model.specs.Catalogue.{catalogue};
ghost use Rattle.catalogue_export.specs.declared.pages.TheConstants.{PAGE_BYTES};
ghost use Rattle.catalogue_export.specs.PageTexts.{ready, to_come, IsMade};
ghost use Rattle.catalogue_export.specs.Walks.{to_write};

use crate::walk::Walk;
use act_model::Shelf;
use item_list::{Bytes, NoMemory};
use std::alloc::Global;

/// How many bytes a page has, the last one aside.
pub const PAGE_BYTES: usize = 4096;

/// The catalogue of an office, handed out page by page.
///
/// Contracts see what is still to come of it (`to_come` of the crate's definitions): over the same history, the pages
/// that were handed out and what is still to come are the whole catalogue. It keeps its place in the office, so that no
/// page costs a walk over what went before.
#[derive(Debug, Drop)]
pub struct Pages {
    /// Bytes of the catalogue that were made, those of the last pages at the front.
    made: Bytes,
    /// How many of them were handed out.
    used: u64,
    walk: Walk,
}

impl Pages {
    /// The pages of a catalogue, of which none was handed out.
    pub fn new(alloc: Global) -> Pages
        ensures all { (history : List Entry) → to_come history result ≡ catalogue history }
    {
        Pages {
            made: Bytes::new(alloc),
            used: 0,
            walk: Walk::new(alloc),
        }
    }

    /// Puts the next bytes of the catalogue into the front of the page and says how many: 4,096, or as many as are left
    /// where these are fewer, so 0 exactly where all of it was handed out.
    ///
    /// # Errors
    ///
    /// Memory was refused. What is to come is as it was, so that the next call goes on at the same place. No memory is
    /// needed where the bytes of a whole page were made, or all that are left.
    pub fn next<V: Shelf>(
        &mut self,
        alloc: Global,
        shelf: &V,
        page: &mut [u8; PAGE_BYTES],
    ) -> Result<usize, NoMemory>
        ensures count { IfOk result (λ n. n ≡ min PAGE_BYTES (length (to_come (V.history shelf.now) self.old))) }
        ensures bytes { IfOk result (λ n. take n page.new ≡ take n (to_come (V.history shelf.now) self.old)) }
        ensures rest { IfOk result (λ n.
            to_come (V.history shelf.now) self.new ≡ drop n (to_come (V.history shelf.now) self.old)) }
        ensures stays { OnErr result (to_come (V.history shelf.now) self.new ≡ to_come (V.history shelf.now) self.old) }
        ensures made { IsMade self.old → is_ok result ≡ true }
    {
        self.fill(alloc, shelf)?;
        Ok(self.hand_out(page))
    }

    // The bytes that were made and not handed out.
    fn ready(&self) -> &[u8]
        ensures { result.now ≡ ready self.now }
    {
        let made = self.made.as_slice();
        let used = made.len().min(self.used as usize);
        &made[used..]
    }

    // Whether the bytes of a whole page were made, or all that are left.
    fn is_made(&self) -> bool
        ensures made { IsMade self.now → result ≡ true }
        ensures enough { IsTrue result → (history : List Entry) →
            (PAGE_BYTES ≤ length (ready self.now)) ⊎ (to_write history self.now.walk ≡ []) }
    {
        self.ready().len() >= PAGE_BYTES || self.walk.is_ended()
    }

    // Lets go of the bytes that were handed out.
    fn tidy(&mut self, alloc: Global) -> Result<(), NoMemory>
        ensures ready { OnOk result (self.new.made ≡ ready self.old) }
        ensures used { OnOk result (self.new.used ≡ 0) }
        ensures err { OnErr result (self.new ≡ self.old) }
        ensures walk { self.new.walk ≡ self.old.walk }
    {
        let made = Bytes::from_slice(alloc, self.ready())?;
        self.made = made;
        self.used = 0;
        Ok(())
    }

    // Makes bytes until there are enough for a page, or all.
    fn fill<V: Shelf>(&mut self, alloc: Global, shelf: &V) -> Result<(), NoMemory>
        ensures same { to_come (V.history shelf.now) self.new ≡ to_come (V.history shelf.now) self.old }
        ensures enough { OnOk result
            ((PAGE_BYTES ≤ length (ready self.new)) ⊎ (to_write (V.history shelf.now) self.new.walk ≡ [])) }
        ensures made { IsMade self.old → is_ok result ≡ true }
    {
        if self.is_made() {
            return Ok(());
        }
        self.tidy(alloc)?;
        'making: while self.made.len() < PAGE_BYTES as u64 && !self.walk.is_ended() {
            self.walk.step(alloc, shelf, &mut self.made)?;
        }
        Ok(())
    }

    // Hands out a page of the bytes that were made, or all of them where they are fewer.
    fn hand_out(&mut self, page: &mut [u8; PAGE_BYTES]) -> usize
        ensures count { result ≡ min PAGE_BYTES (length (ready self.old)) }
        ensures bytes { take result page.new ≡ take result (ready self.old) }
        ensures rest { ready self.new ≡ drop result (ready self.old) }
        ensures walk { self.new.walk ≡ self.old.walk }
    {
        let made = self.made.as_slice();
        let used = made.len().min(self.used as usize);
        let ready = &made[used..];
        let count = ready.len().min(PAGE_BYTES);
        page[..count].copy_from_slice(&ready[..count]);
        self.used = (used + count) as u64;
        count
    }
}
