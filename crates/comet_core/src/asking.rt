//! The answers to queries, which read the register and leave it.

ghost use Rattle.std.specs.Prelude.{◌≡◌, ◌≢◌, ℕ, ℤ, false, reverse, List, Option, Ok, Err, IfOk, IfErr};
ghost use Rattle.act_model.specs.Deeds.{deeds};
ghost use Rattle.act_model.specs.Designations.{links_of};
ghost use Rattle.act_model.specs.Shelves.{principal_by};
ghost use Rattle.comet_model.specs.declared.naming.Naming.{Naming};
ghost use Rattle.comet_model.specs.declared.reply.CometRefusal.{CometRefusal};
ghost use Rattle.comet_model.specs.Requests.{is_act};
ghost use Rattle.comet_model.specs.Step.{asked_step, outcome, Refuses, Tells};
ghost use Rattle.comet_model.specs.Texts.{register_text};
ghost use Rattle.comet_model.specs.Turns.{Answers};
ghost use Rattle.comet_core.specs.Asking.{IsTold};
ghost use Rattle.comet_core.specs.Register.{IsOver};

use crate::register::Register;
use act_model::Shelf;
use comet_model::{
    CometAsked, CometNames, CometRefusal, CometReply, CometRequest, NamedComet, bytes_in, hear,
    push_register_line, translate,
};
use item_list::{Bytes, NoMemory};
use packed_names::Designation;
use std::alloc::Global;

/// The principal designation of the object that a designation belongs to, and the designation itself where the office
/// didn't give it.
fn principal_by<V: Shelf>(shelf: &V, object: Designation) -> Designation
    ensures { result ≡ principal_by (links_of (deeds (V.history shelf.now))) object }
{
    match shelf.principal(object) {
        Some(principal) => principal,
        None => object,
    }
}

/// A line for each of these comets, with the principal designation of its object now.
fn register_text<V: Shelf>(
    alloc: Global,
    shelf: &V,
    comets: &[NamedComet],
) -> Result<Bytes, NoMemory>
    ensures { IfOk result (λ text. text
        ≡ register_text (links_of (deeds (V.history shelf.now))) (reverse comets.now)) }
{
    let mut out = Bytes::new(alloc);
    'comets: for named in comets {
        push_register_line(&mut out, *named, principal_by(shelf, named.object))?;
    }
    Ok(out)
}

impl CometNames for Register {
    ghost comets = { λ r. r.comets };

    fn object_named(&self, name: &[u8]) -> Option<Designation> {
        self.comets().object_named(name)
    }
}

impl Register {
    /// What a query that was heard is told.
    fn tell<V: Shelf>(
        &self,
        alloc: Global,
        shelf: &V,
        asked: CometAsked,
        bytes: &[u8],
    ) -> Result<Bytes, NoMemory>
        requires query { (naming : Naming) → asked ≢ CometAsked.Names naming }
        requires over { IsOver (deeds (V.history shelf.now)) self.now }
        ensures { (limit : Option ℕ) (number : ℕ) (moment : ℤ) → IfOk result (λ text. asked_step limit
            (deeds (V.history shelf.now)) self.now.entries number asked bytes.now moment ≡ Tells text) }
    {
        match asked {
            CometAsked::Register => register_text(alloc, shelf, self.comets().as_slice()),
            CometAsked::Translate => translate(alloc, self, bytes),
            CometAsked::Names(_) => unreachable!("a query names no comet"),
        }
    }

    /// What a query is told, where a refusal is an error.
    fn try_ask<V: Shelf>(
        &self,
        alloc: Global,
        shelf: &V,
        request: &CometRequest,
    ) -> Result<Bytes, CometRefusal>
        requires query { is_act request.now.verb ≡ false }
        requires over { IsOver (deeds (V.history shelf.now)) self.now }
        ensures told { (limit : Option ℕ) (reading : ℤ) → IsTold
            (outcome self.now.founder limit (deeds (V.history shelf.now)) self.now.entries request.now reading) result }
        ensures refused { (limit : Option ℕ) (reading : ℤ) (refusal : CometRefusal) →
            outcome self.now.founder limit (deeds (V.history shelf.now)) self.now.entries request.now reading
            ≡ Refuses refusal → result ≡ Err refusal }
    {
        let bytes = match bytes_in(&request.body) {
            Ok(bytes) => bytes,
            Err(refusal) => return Err(refusal),
        };
        let heard = match hear(alloc, self.founder(), request, bytes) {
            Ok(heard) => heard,
            Err(refusal) => return Err(refusal),
        };
        match self.tell(alloc, shelf, heard.asked, bytes) {
            Ok(text) => Ok(text),
            Err(_) => Err(CometRefusal::NoMemory),
        }
    }

    /// The answer to a query, a request whose verb isn't that of the act, beside an office that is read. To `register`
    /// it is a line for each comet in the order in which they were named, with the principal designation that the
    /// office has for its object now; to `translate` the batch in which designations stand in the place of the comets'
    /// names. Each name is found by its mark.
    ///
    /// The request is refused with `TooLarge` for its body, `Unread` for the verb, the number and the body, in this
    /// order, and `UnknownKey` for a key that isn't the founding officer's; with `NoMemory` where memory was refused
    /// for the text, but never in the place of another refusal, and always where there was no room for the body.
    pub fn ask<V: Shelf>(&self, alloc: Global, shelf: &V, request: &CometRequest) -> CometReply
        requires query { is_act request.now.verb ≡ false }
        requires over { IsOver (deeds (V.history shelf.now)) self.now }
        ensures answer { (limit : Option ℕ) (reading : ℤ) → Answers self.now.founder limit
            (deeds (V.history shelf.now)) self.now.entries request.now reading result self.now.entries }
        ensures refused { (limit : Option ℕ) (reading : ℤ) (refusal : CometRefusal) →
            outcome self.now.founder limit (deeds (V.history shelf.now)) self.now.entries request.now reading
            ≡ Refuses refusal → result ≡ CometReply.Refused refusal }
    {
        match self.try_ask(alloc, shelf, request) {
            Ok(text) => CometReply::Done(text),
            Err(refusal) => CometReply::Refused(refusal),
        }
    }
}
