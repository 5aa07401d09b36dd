//! Laws of registers, turns and conducts, each the contract of a function that does nothing.

ghost use Rattle.std.specs.Prelude.{◌≡◌, ◌++◌, ◌<◌, Bool, true, false, ℕ, ℤ, List, [], ◌∷◌, length, Option, Some, None};
ghost use Rattle.std.specs.Prelude.{IsSomeAnd, Ok};
ghost use Rattle.obs_time.specs.Instants.{IsInstantNs};
ghost use Rattle.packed_names.specs.declared.half_month.HalfMonth.{HalfMonth};
ghost use Rattle.packed_names.specs.declared.name.Designation.{Designation};
ghost use Rattle.packed_names.specs.declared.name.Designation.TheVariants.{Provisional as ByHalf};
ghost use Rattle.packed_names.specs.declared.provisional.Provisional.{Provisional};
ghost use Rattle.read_ahead.specs.declared.body.Body.TheVariants.{NoRoom};
ghost use Rattle.act_bodies.specs.declared.key.Key.{Key};
ghost use Rattle.col80_format.specs.Batch.{is_front_line};
ghost use Rattle.act_model.specs.declared.deed.Deed.{Deed};
ghost use Rattle.act_model.specs.declared.entry.Entry.{Entry};
ghost use Rattle.act_model.specs.declared.keeper.OfficeState.{OfficeState};
ghost use Rattle.act_model.specs.Conducts.{Extends, EitherWay};
ghost use Rattle.act_model.specs.Deeds.{deeds};
ghost use Rattle.act_model.specs.History.{Kept, numbered_entry, EachNumberOnce};
ghost use Rattle.act_model.specs.Turns.{at_rest, Mends};
ghost use Rattle.comet_model.specs.declared.named.Found.TheVariants.{Discovered};
ghost use Rattle.comet_model.specs.declared.named.NamedComet.{NamedComet};
ghost use Rattle.comet_model.specs.declared.naming.Naming.{Naming};
ghost use Rattle.comet_model.specs.declared.reply.CometRefusal.{CometRefusal};
ghost use Rattle.comet_model.specs.declared.reply.CometRefusal.TheVariants.{DiskFault, NoMemory};
ghost use Rattle.comet_model.specs.declared.reply.CometReply.{CometReply};
ghost use Rattle.comet_model.specs.declared.reply.CometReply.TheVariants.{Done, Refused};
ghost use Rattle.comet_model.specs.declared.request.CometRequest.{CometRequest};
ghost use Rattle.comet_model.specs.Requests.{is_act};
ghost use Rattle.comet_model.specs.Finding.{found_of};
ghost use Rattle.comet_model.specs.Register.{comets};
ghost use Rattle.comet_model.specs.Replies.{entry_answer};
ghost use Rattle.comet_model.specs.Refusals.{names};
ghost use Rattle.comet_model.specs.Texts.{packed_comet_text};
ghost use Rattle.comet_model.specs.Translation.{object_named, object_in};
ghost use Rattle.comet_model.specs.Step.{Adds, outcome, step};
ghost use Rattle.comet_model.specs.Turns.{CometTurn, Answers, IsTurn, Conduct};
ghost use Rattle.comet_model.specs.Conducts.{HadMemory, HadNoFault, NoDiskFaults, IsStepped, IsAnswered};
ghost use Rattle.comet_model.specs.Conducts.{IsAcknowledged, Makes};
ghost use Rattle.comet_model.specs.Legal.{IsLegal};
ghost use Rattle.comet_model.specs.Worlds.{WorldState, new_register, Event, World};
ghost use Rattle.comet_model.specs.Worlds.{AreStillAcknowledged, AreAnsweredAgain};
ghost use Rattle.comet_model.specs.LawsBelow.{Laws};
ghost use Rattle.comet_model.specs.Unbroken.{UnbrokenNames, AreComets};

/// The laws of the crates below, together.
pub(crate) fn below()
    ensures { Laws }
{
    packed_names::laws::orders();
    comet_names::laws::packed_one_to_one();
    act_model::laws::acts_fit();
    act_model::laws::names_are_names();
}

/// What the office has of a designation that it gave stays as its history grows, and so does all that a register says:
/// it stays legal, its comets are the same, and so is the answer to each entry.
pub fn longer()
    ensures legal { (founder : Key) (earlier later : List Entry) (entries : List Entry) → Extends earlier later →
        IsLegal founder (deeds earlier) entries → IsLegal founder (deeds later) entries }
    ensures comets { (founder : Key) (earlier later : List Entry) (entries : List Entry) → Extends earlier later →
        IsLegal founder (deeds earlier) entries → comets (deeds later) entries ≡ comets (deeds earlier) entries }
    ensures answers { (founder : Key) (earlier later : List Entry) (entry : Entry) (past : List Entry) →
        Extends earlier later → IsLegal founder (deeds earlier) (entry ∷ past) →
        entry_answer (deeds later) past entry ≡ entry_answer (deeds earlier) past entry }
{
    below();
}

/// The half-month in which the object of a designation was discovered is the designation's own.
pub fn discovered_in_their_own_half_months()
    ensures { (history : List Entry) (d : Designation) (half : HalfMonth) →
        found_of (deeds history) d ≡ Discovered half → (p : Provisional) × (d ≡ ByHalf p) × (p.half ≡ half) }
{
    below();
}

/// In each half-month the numbers of the comets are 1, 2, 3 and so on in the order in which they were named, C and P
/// together, and at most 99. No designation has two names.
pub fn unbroken_names()
    ensures { (desk : List Deed) (entries : List Entry) → UnbrokenNames desk entries }
{
    packed_names::laws::orders();
}

/// Each name of a register is one that a comet may have, so that it has a printed and a packed text.
pub fn names_are_comets()
    ensures { (history entries : List Entry) → AreComets (comets (deeds history) entries) }
{
    below();
}

/// The name that is given next is one that no comet of the register has: its packed form stands for no object before.
pub fn names_are_new()
    ensures { (history entries : List Entry) (naming : Naming) (named : NamedComet) →
        names (deeds history) (comets (deeds history) entries) naming ≡ Ok named →
        object_named (comets (deeds history) entries) (packed_comet_text named.comet) ≡ None }
{
    below();
}

/// Each entry of a legal register names a comet.
pub fn each_entry_names()
    ensures { (founder : Key) (desk : List Deed) (entries : List Entry) → IsLegal founder desk entries →
        length (comets desk entries) ≡ length entries }
{}

/// A line that names a comet is neither blank nor a header line, so that it is an observation line wherever it stands
/// in a batch.
pub fn lines_with_comets_are_observations()
    ensures { (named : List NamedComet) (line : List ℕ) (d : Designation) → object_in named line ≡ Some d →
        is_front_line line ≡ false }
{}

/// A register that is made of a legal one is legal: after one step, and after a conduct, with the act in doubt and
/// without. So is each that is made from nothing.
pub fn registers_are_legal()
    ensures step { (founder : Key) (limit : Option ℕ) (desk : List Deed) (past after : List Entry)
        (request : CometRequest) (reading : ℤ) (reply : CometReply) → IsLegal founder desk past →
        IsInstantNs reading → step founder limit desk past request reading ≡ (reply, after) →
        IsLegal founder desk after }
    ensures conduct { (founder : Key) (limit : Option ℕ) (desk : List Deed) (before after : OfficeState)
        (turns : List CometTurn) → EitherWay (IsLegal founder desk) before →
        Conduct founder limit desk before turns after → EitherWay (IsLegal founder desk) after }
    ensures from_nothing { (founder : Key) (limit : Option ℕ) (desk : List Deed) (after : OfficeState)
        (turns : List CometTurn) → Conduct founder limit desk (at_rest []) turns after →
        EitherWay (IsLegal founder desk) after }
{}

/// The founding officer's key plays no part in what is legal.
pub fn any_founder()
    ensures { (founder other : Key) (desk : List Deed) (entries : List Entry) → IsLegal founder desk entries →
        IsLegal other desk entries }
{}

/// What stood before the newest entries of a legal register was a legal register too.
pub fn prefixes_are_legal()
    ensures { (founder : Key) (desk : List Deed) (earlier later : List Entry) → IsLegal founder desk later →
        Extends earlier later → IsLegal founder desk earlier }
{}

/// Each number acts at most once: no two entries of a legal register have the same number, nor of the register that a
/// conduct leaves, with the act in doubt and without.
pub fn numbers_once()
    ensures legal { (founder : Key) (desk : List Deed) (entries : List Entry) → IsLegal founder desk entries →
        EachNumberOnce entries }
    ensures conduct { (founder : Key) (limit : Option ℕ) (desk : List Deed) (before after : OfficeState)
        (turns : List CometTurn) → Conduct founder limit desk before turns after →
        EitherWay EachNumberOnce before → EitherWay EachNumberOnce after }
{}

/// A refusal changes nothing.
pub fn a_refusal_changes_nothing()
    ensures { (founder : Key) (limit : Option ℕ) (desk : List Deed) (past after : List Entry)
        (request : CometRequest) (reading : ℤ) (refusal : CometRefusal) →
        step founder limit desk past request reading ≡ (Refused refusal, after) → after ≡ past }
{}

/// The step leaves the register, or the request becomes its newest entry, and the reply is the answer to that.
pub fn steps_add_one_entry()
    ensures { (founder : Key) (limit : Option ℕ) (desk : List Deed) (past after : List Entry)
        (request : CometRequest) (reading : ℤ) (reply : CometReply) →
        step founder limit desk past request reading ≡ (reply, after) →
        Makes desk past (outcome founder limit desk past request reading) reply after }
{}

/// A request for whose body there was no room is answered `NoMemory` and nothing else, and changes nothing.
pub fn no_room_no_step()
    ensures step { (founder : Key) (limit : Option ℕ) (desk : List Deed) (past : List Entry)
        (request : CometRequest) (reading : ℤ) → request.body ≡ NoRoom →
        step founder limit desk past request reading ≡ (Refused NoMemory, past) }
    ensures turn { (founder : Key) (limit : Option ℕ) (desk : List Deed) (past after : List Entry)
        (request : CometRequest) (reading : ℤ) (reply : CometReply) → request.body ≡ NoRoom →
        Answers founder limit desk past request reading reply after →
        (reply ≡ Refused NoMemory) × (after ≡ past) }
{}

/// `NoMemory` may stand in the place of a refusal, and changes nothing.
pub fn out_of_memory_changes_nothing()
    ensures instead { (founder : Key) (limit : Option ℕ) (desk : List Deed) (past after : List Entry)
        (request : CometRequest) (reading : ℤ) (refusal : CometRefusal) →
        Answers founder limit desk past request reading (Refused refusal) after →
        Answers founder limit desk past request reading (Refused NoMemory) after }
    ensures stays { (founder : Key) (limit : Option ℕ) (desk : List Deed) (past after : List Entry)
        (request : CometRequest) (reading : ℤ) →
        Answers founder limit desk past request reading (Refused NoMemory) after → after ≡ past }
{}

/// A turn that is refused leaves the register as it was, but for an act in doubt that it mended.
pub fn a_refusal_only_mends()
    ensures { (founder : Key) (limit : Option ℕ) (desk : List Deed) (before after : OfficeState)
        (turn : CometTurn) (refusal : CometRefusal) → IsTurn founder limit desk before turn after →
        turn.reply ≡ Refused refusal → Mends before.settled before.doubt after.settled }
{}

/// A conduct goes on with one turn more.
pub fn conducts_go_on()
    ensures { (founder : Key) (limit : Option ℕ) (desk : List Deed) (before between after : OfficeState)
        (turns : List CometTurn) (turn : CometTurn) → Conduct founder limit desk before turns between →
        IsTurn founder limit desk between turn after →
        Conduct founder limit desk before (turns ++ turn ∷ []) after }
{}

/// A later settled register is an earlier one with newer entries before it: what was accepted stays.
pub fn registers_grow()
    ensures { (founder : Key) (limit : Option ℕ) (desk : List Deed) (before after : OfficeState)
        (turns : List CometTurn) → Conduct founder limit desk before turns after →
        Extends before.settled after.settled }
{}

/// An act that was answered is in the settled register, under its number, and the answer is that entry's. It stays
/// there as the register grows, and the same request is answered alike whenever it is sent again.
pub fn acknowledged_acts_are_kept()
    ensures turn { (founder : Key) (limit : Option ℕ) (desk : List Deed) (before after : OfficeState)
        (turn : CometTurn) (text : List ℕ) → IsTurn founder limit desk before turn after →
        is_act turn.request.verb ≡ true → turn.reply ≡ Done text →
        IsAcknowledged desk turn.request text after.settled }
    ensures later { (founder : Key) (desk : List Deed) (earlier later : List Entry) (number : ℕ) (k : Kept) →
        IsLegal founder desk later → Extends earlier later → numbered_entry earlier 0 number ≡ Some k →
        numbered_entry later 0 number ≡ Some k }
    ensures again { (founder : Key) (limit other : Option ℕ) (desk : List Deed) (past after later : List Entry)
        (request : CometRequest) (first again : ℤ) (text : List ℕ) → is_act request.verb ≡ true →
        step founder limit desk past request first ≡ (Done text, after) → IsLegal founder desk later →
        Extends after later → step founder other desk later request again ≡ (Done text, later) }
{}

/// The step never answers that a disk failed. So a turn answers it only where the count of faults rose in that turn;
/// and where it answers that its act is in doubt, the act in doubt is what the request becomes at the settled register.
pub fn disk_faults_have_a_cause()
    ensures step { (founder : Key) (limit : Option ℕ) (desk : List Deed) (past after : List Entry)
        (request : CometRequest) (reading : ℤ) (doubt : Bool) →
        step founder limit desk past request reading ≡ (Refused (DiskFault doubt), after) → ⊥ }
    ensures turn { (founder : Key) (limit : Option ℕ) (desk : List Deed) (before after : OfficeState)
        (turn : CometTurn) (doubt : Bool) → IsTurn founder limit desk before turn after →
        turn.reply ≡ Refused (DiskFault doubt) → 0 < turn.rise }
    ensures doubt { (founder : Key) (limit : Option ℕ) (desk : List Deed) (before after : OfficeState)
        (turn : CometTurn) (reading : ℤ) → IsTurn founder limit desk before turn after →
        turn.reading ≡ Some reading → turn.reply ≡ Refused (DiskFault true) →
        IsSomeAnd after.doubt (λ entry.
        outcome founder limit desk after.settled turn.request reading ≡ Adds entry) }
{}

/// Where the disk's count of faults rose in no turn and nothing was in doubt, nothing is, and the replies are those
/// of the step, one after another, or out of memory, and none is that the disk failed; where no turn ran out of memory,
/// they are those of the step.
pub fn no_faults()
    ensures settled { (founder : Key) (limit : Option ℕ) (desk : List Deed) (past : List Entry)
        (after : OfficeState) (turns : List CometTurn) →
        Conduct founder limit desk (at_rest past) turns after → HadNoFault turns → after ≡ at_rest after.settled }
    ensures answered { (founder : Key) (limit : Option ℕ) (desk : List Deed) (past : List Entry)
        (after : OfficeState) (turns : List CometTurn) →
        Conduct founder limit desk (at_rest past) turns after → HadNoFault turns →
        IsAnswered founder limit desk past turns after.settled }
    ensures none { (founder : Key) (limit : Option ℕ) (desk : List Deed) (past : List Entry)
        (after : OfficeState) (turns : List CometTurn) →
        Conduct founder limit desk (at_rest past) turns after → HadNoFault turns → NoDiskFaults turns }
    ensures stepped { (founder : Key) (limit : Option ℕ) (desk : List Deed) (past : List Entry)
        (after : OfficeState) (turns : List CometTurn) →
        Conduct founder limit desk (at_rest past) turns after → HadNoFault turns → HadMemory turns →
        IsStepped founder limit desk past turns after.settled }
{}

/// In every world from the empty register, whatever is lost, sent again or stopped at any moment, and however the
/// office's history grows meanwhile: the settled register is legal over the office's history as it is now, with the act
/// in doubt and without, and each number acts at most once. Each act whose 200 was received is acknowledged by the
/// register as it is now; sent again, it is answered alike and leaves the register. As a world goes on, what was
/// settled stays.
pub fn each_once()
    ensures legal { (founder : Key) (limit : Option ℕ) (history : List Entry) (events : List Event)
        (after : WorldState) → World founder limit (new_register history) events after →
        EitherWay (IsLegal founder (deeds after.history)) after.register }
    ensures once { (founder : Key) (limit : Option ℕ) (history : List Entry) (events : List Event)
        (after : WorldState) → World founder limit (new_register history) events after →
        EitherWay EachNumberOnce after.register }
    ensures acknowledged { (founder : Key) (limit : Option ℕ) (history : List Entry) (events : List Event)
        (after : WorldState) → World founder limit (new_register history) events after →
        AreStillAcknowledged (deeds after.history) after.register.settled after.received }
    ensures again { (founder : Key) (limit : Option ℕ) (history : List Entry) (events : List Event)
        (after : WorldState) → World founder limit (new_register history) events after →
        AreAnsweredAgain founder (deeds after.history) after.register.settled after.received }
    ensures grows { (founder : Key) (limit : Option ℕ) (before after : WorldState) (events : List Event) →
        World founder limit before events after → Extends before.register.settled after.register.settled }
{
    below();
}
