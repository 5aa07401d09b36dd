//! The answers to queries, which read the office and leave it.

ghost use Rattle.std.specs.Prelude.{◌≡◌, ℕ, ℤ, false, Option, Err, IfErr};
ghost use Rattle.act_model.specs.declared.reply.Refusal.{Refusal};
ghost use Rattle.act_model.specs.Queries.{IsReadQuery};
ghost use Rattle.act_model.specs.Rows.{IsDue};
ghost use Rattle.act_model.specs.Requests.{is_act};
ghost use Rattle.act_model.specs.Step.{outcome, answer_of_query, Refuses};
ghost use Rattle.desk_core.specs.Claims.{told_by};
ghost use Rattle.desk_core.specs.Preparing.{IsTold};

use crate::hearing::{Claim, bytes_in, hear_query};
use crate::office::Core;
use act_model::{Query, Refusal, Reply, Request, Verb};
use catalogue_export::answer;
use item_list::Bytes;
use std::alloc::Global;

impl Core {
    /// What a query is told, where a refusal is an error.
    pub(crate) fn try_answer(&self, request: &Request) -> Result<Bytes, Refusal>
        requires query { is_act request.now.verb ≡ false }
        ensures told { (limit : Option ℕ) (reading : ℤ) →
            IsTold (outcome self.now.founder limit self.now.history request.now reading) result }
        ensures refused { (limit : Option ℕ) (reading : ℤ) (refusal : Refusal) →
            outcome self.now.founder limit self.now.history request.now reading ≡ Refuses refusal
            → result ≡ Err refusal }
    {
        let bytes = match bytes_in(&request.body) {
            Ok(bytes) => bytes,
            Err(refusal) => return Err(refusal),
        };
        let claim = match self.claim_of(request.verb, request.number, &request.key) {
            Ok(claim) => claim,
            Err(refusal) => return Err(refusal),
        };
        self.tell(claim, request.verb, bytes)
    }

    /// What a query is told that said so much of itself.
    fn tell(&self, claim: Claim, verb: Verb, bytes: &[u8]) -> Result<Bytes, Refusal>
        requires query { is_act verb ≡ false }
        ensures due { IsDue (told_by self.now.history claim verb bytes.now) result }
        ensures refused { IfErr (told_by self.now.history claim verb bytes.now) (λ refusal. result ≡ Err refusal) }
    {
        match hear_query(claim, verb, bytes) {
            Ok((caller, query)) => self.told(self.allocator(), caller.number, query),
            Err(refusal) => Err(refusal),
        }
    }

    /// What a caller's query is told.
    fn told(&self, alloc: Global, caller: u32, query: Query) -> Result<Bytes, Refusal>
        requires { IsReadQuery query }
        ensures due { IsDue (answer_of_query self.now.history caller query) result }
        ensures refused { IfErr (answer_of_query self.now.history caller query) (λ refusal. result ≡ Err refusal) }
    {
        match answer(alloc, self, caller, &query) {
            Reply::Done(text) => Ok(text),
            Reply::Refused(refusal) => Err(refusal),
        }
    }
}
