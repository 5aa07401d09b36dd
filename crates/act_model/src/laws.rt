//! Laws of histories, conducts and worlds, each the contract of a function that does nothing.

ghost use Rattle.std.specs.Prelude.{◌≡◌, ◌+◌, ◌<◌, Bool, true, ℕ, ℤ, pos, List, [], ◌∷◌, ◌++◌, Option, Some, None};
ghost use Rattle.std.specs.Prelude.{IsSomeAnd, Ok, map, reverse, take, unwrap_or, false};
ghost use Rattle.std.specs.List.{Contains};
ghost use Rattle.obs_time.specs.Instants.{IsInstantNs};
ghost use Rattle.act_bodies.specs.declared.key.Key.{Key};
ghost use Rattle.act_bodies.specs.Keys.{key_text, begins_with_plus};
ghost use Rattle.act_bodies.specs.Members.{is_station_code};
ghost use Rattle.act_model.specs.declared.deed.Deed.{Deed};
ghost use Rattle.act_model.specs.declared.entry.Entry.{Entry};
ghost use Rattle.act_model.specs.declared.heard.Heard.{Heard};
ghost use Rattle.act_model.specs.declared.keeper.OfficeState.{OfficeState};
ghost use Rattle.act_model.specs.declared.reply.Refusal.{Refusal};
ghost use Rattle.act_model.specs.declared.reply.Refusal.TheVariants.{DiskFault, NoMemory};
ghost use Rattle.act_model.specs.declared.reply.Reply.{Reply};
ghost use Rattle.act_model.specs.declared.reply.Reply.TheVariants.{Done, Refused};
ghost use Rattle.read_ahead.specs.declared.body.Body.TheVariants.{NoRoom};
ghost use Rattle.act_model.specs.declared.request.Request.{Request};
ghost use Rattle.act_model.specs.declared.roster.Caller.{Caller};
ghost use Rattle.act_model.specs.Requests.{is_act};
ghost use Rattle.act_model.specs.Roster.{members, caller_of};
ghost use Rattle.act_model.specs.Deeds.{deed_of, deeds};
ghost use Rattle.act_model.specs.History.{Kept, numbered_entry, EachNumberOnce};
ghost use Rattle.act_model.specs.Hearing.{asked_of};
ghost use Rattle.act_model.specs.Refusals.{work_out, work_within};
ghost use Rattle.act_model.specs.Step.{Adds, new_entry, outcome, step};
ghost use Rattle.act_model.specs.Clocks.{ClockState, Gives};
ghost use Rattle.act_model.specs.Turns.{Turn, TakesReading, Answers, IsTurn, Conduct, at_rest, Mends};
ghost use Rattle.act_model.specs.Conducts.{Extends, HadMemory, HadNoFault, NoDiskFaults, IsStepped, IsAnswered};
ghost use Rattle.act_model.specs.Conducts.{IsAcknowledged, EitherWay, Makes};
ghost use Rattle.act_model.specs.Worlds.{WorldState, running_world, new_office, Event, Received, World};
ghost use Rattle.act_model.specs.Worlds.{AreStillAcknowledged, AreAnsweredAgain};
ghost use Rattle.act_model.specs.Legal.{IsLegal};
ghost use Rattle.tracklet_file.specs.declared.observation.Observation.{Observation};
ghost use Rattle.tracklet_file.specs.declared.tracklet.Tracklet.{Tracklet};
ghost use Rattle.packed_names.specs.declared.name.Designation.{Designation};
ghost use Rattle.packed_names.specs.declared.name.Designation.TheVariants.{Provisional as ByHalf};
ghost use Rattle.packed_names.specs.declared.number.Number.{Number};
ghost use Rattle.packed_names.specs.declared.provisional.Provisional.{Provisional};
ghost use Rattle.packed_names.specs.Ranges.{IsNumber, IsDesignation};
ghost use Rattle.obs_record.specs.declared.short.Short.{Short};
ghost use Rattle.obs_record.specs.Filed.{IsTrackName, IsFiled};
ghost use Rattle.obs_record.specs.declared.line.Line.{Line};
ghost use Rattle.act_model.specs.Taken.{taken_with};
ghost use Rattle.station_tables.specs.declared.kind.Kind.{Kind};
ghost use Rattle.station_tables.specs.Codes.{letter_of};
ghost use Rattle.station_tables.specs.Letters.{IsLetterOf};
ghost use Rattle.identify_core.specs.Acts.{principal};
ghost use Rattle.numbering_core.specs.Numbers.{number_of, named};
ghost use Rattle.act_model.specs.Catalogue.{is_discovery};
ghost use Rattle.act_model.specs.Designations.{links_of, is_given, row_acts_of};
ghost use Rattle.designate_core.specs.Takes.{discovery_of};
ghost use Rattle.act_model.specs.Numbers.{numbers_of};
ghost use Rattle.act_model.specs.OfficeTables.{tables_of};
ghost use Rattle.tracklet_file.specs.Numbering.{numbered};
ghost use Rattle.act_model.specs.declared.act.Act.{Act};
ghost use Rattle.act_model.specs.Acts.{IsRead};
ghost use Rattle.act_model.specs.BatchRules.{is_in_years};
ghost use Rattle.act_model.specs.Doing.{does};
ghost use Rattle.act_model.specs.Fitting.{FitsObjects};
ghost use Rattle.act_model.specs.Unbroken.{carried_by, UnbrokenRows, UnbrokenNumbers};
ghost use Rattle.act_model.specs.Holdings.{holdings};
ghost use Rattle.act_model.specs.Observations.{observations};
ghost use Rattle.act_model.specs.Listing.{ListsEachOnce};
ghost use Rattle.act_model.specs.Places.{OnePlace, added_by};

/// A refusal changes nothing.
pub fn a_refusal_changes_nothing()
    ensures { (founder : Key) (limit : Option ℕ) (past after : List Entry) (request : Request) (reading : ℤ)
        (refusal : Refusal) → step founder limit past request reading ≡ (Refused refusal, after) → after ≡ past }
{}

/// The step leaves the history, or the request becomes its newest entry, and the reply is the answer to that.
pub fn steps_add_one_entry()
    ensures { (founder : Key) (limit : Option ℕ) (past after : List Entry) (request : Request) (reading : ℤ)
        (reply : Reply) → step founder limit past request reading ≡ (reply, after) →
        Makes past (outcome founder limit past request reading) reply after }
{}

/// A request for whose body there was no room is answered `NoMemory` and nothing else, and changes nothing.
pub fn no_room_no_step()
    ensures step { (founder : Key) (limit : Option ℕ) (past : List Entry) (request : Request) (reading : ℤ) →
        request.body ≡ NoRoom → step founder limit past request reading ≡ (Refused NoMemory, past) }
    ensures turn { (founder : Key) (limit : Option ℕ) (past after : List Entry) (request : Request) (reading : ℤ)
        (reply : Reply) → request.body ≡ NoRoom → Answers founder limit past request reading reply after →
        (reply ≡ Refused NoMemory) × (after ≡ past) }
{}

/// What is worked out for a request that was heard is the deed of the entry that it becomes.
pub fn deeds_are_worked_out_once()
    ensures deed { (bytes : List ℕ) (heard : Heard) (past : List Entry) (moment : ℤ) (deed : Deed) →
        asked_of heard.verb bytes ≡ Ok heard.asked → work_out past moment heard ≡ Ok deed →
        deed_of (deeds past) (new_entry heard bytes moment) ≡ deed }
    ensures within { (limit : Option ℕ) (past : List Entry) (bytes : List ℕ) (moment : ℤ) (heard : Heard)
        (deed : Deed) → work_within limit past bytes moment heard ≡ Ok deed → work_out past moment heard ≡ Ok deed }
{}

/// `NoMemory` may stand in the place of a refusal, and changes nothing.
pub fn out_of_memory_changes_nothing()
    ensures instead { (founder : Key) (limit : Option ℕ) (past after : List Entry) (request : Request) (reading : ℤ)
        (refusal : Refusal) → Answers founder limit past request reading (Refused refusal) after →
        Answers founder limit past request reading (Refused NoMemory) after }
    ensures stays { (founder : Key) (limit : Option ℕ) (past after : List Entry) (request : Request) (reading : ℤ) →
        Answers founder limit past request reading (Refused NoMemory) after → after ≡ past }
{}

/// Without a disk, what answers a request is a turn, and nothing is in doubt before or after it.
pub fn answers_are_turns()
    ensures { (founder : Key) (limit : Option ℕ) (past after : List Entry) (turn : Turn) →
        TakesReading turn.request.verb turn.reading →
        Answers founder limit past turn.request (unwrap_or turn.reading (pos 0)) turn.reply after →
        IsTurn founder limit (at_rest past) turn (at_rest after) }
{}

/// A turn that is refused leaves the history as it was, but for an act in doubt that it mended.
pub fn a_refusal_only_mends()
    ensures { (founder : Key) (limit : Option ℕ) (before after : OfficeState) (turn : Turn) (refusal : Refusal) →
        IsTurn founder limit before turn after → turn.reply ≡ Refused refusal →
        Mends before.settled before.doubt after.settled }
{}

/// A clock that gave some readings and then others gave them all, one after the other.
pub fn readings_go_on()
    ensures { (before between after : ClockState) (readings more : List ℤ) →
        Gives before between readings → Gives between after more → Gives before after (readings ++ more) }
{}

/// A conduct goes on with one turn more.
pub fn conducts_go_on()
    ensures { (founder : Key) (limit : Option ℕ) (before between after : OfficeState) (turns : List Turn)
        (turn : Turn) → Conduct founder limit before turns between → IsTurn founder limit between turn after →
        Conduct founder limit before (turns ++ turn ∷ []) after }
{}

/// A later settled history is an earlier one with newer entries before it: what was accepted stays.
pub fn histories_grow()
    ensures { (founder : Key) (limit : Option ℕ) (before after : OfficeState) (turns : List Turn) →
        Conduct founder limit before turns after → Extends before.settled after.settled }
{}

/// Each caller's numbered request becomes at most one entry, and an act in doubt has no number that was used.
pub fn numbers_once()
    ensures { (founder : Key) (limit : Option ℕ) (before after : OfficeState) (turns : List Turn) →
        Conduct founder limit before turns after → EitherWay EachNumberOnce before → EitherWay EachNumberOnce after }
{}

/// Whatever is lost, sent again or stopped: in every world from the empty office the settled history is legal, with the
/// act in doubt and without, and no two of its entries have the same caller and number. Each act whose 200 was received
/// is acknowledged by the history as it is now, and when it is sent again it is answered alike and leaves the history.
/// As any world goes on, what was settled stays, through each stop.
pub fn each_once()
    ensures legal { (founder : Key) (limit : Option ℕ) (events : List Event) (after : WorldState) →
        World founder limit new_office events after → EitherWay (IsLegal founder) after.office }
    ensures once { (founder : Key) (limit : Option ℕ) (events : List Event) (after : WorldState) →
        World founder limit new_office events after → EitherWay EachNumberOnce after.office }
    ensures acknowledged { (founder : Key) (limit : Option ℕ) (events : List Event) (after : WorldState) →
        World founder limit new_office events after →
        AreStillAcknowledged founder after.office.settled after.received }
    ensures again { (founder : Key) (limit : Option ℕ) (events : List Event) (after : WorldState) →
        World founder limit new_office events after → AreAnsweredAgain founder after.office.settled after.received }
    ensures grows { (founder : Key) (limit : Option ℕ) (before after : WorldState) (events : List Event) →
        World founder limit before events after → Extends before.office.settled after.office.settled }
{}

/// A conduct is a world in which each reply was received and nothing else happened, and such a world is a conduct.
pub fn conducts_are_worlds()
    ensures world { (founder : Key) (limit : Option ℕ) (before after : OfficeState) (received turns : List Turn) →
        Conduct founder limit before turns after →
        World founder limit (running_world before received) (map Received turns)
        (running_world after (reverse turns ++ received)) }
    ensures conduct { (founder : Key) (limit : Option ℕ) (before after : WorldState) (turns : List Turn) →
        World founder limit before (map Received turns) after →
        Conduct founder limit before.office turns after.office }
{}

/// The step never answers that a disk failed. So a turn answers it only where the count of faults rose in that turn;
/// and where it answers that its act is in doubt, the act in doubt is what the request becomes at the settled history.
pub fn disk_faults_have_a_cause()
    ensures step { (founder : Key) (limit : Option ℕ) (past after : List Entry) (request : Request) (reading : ℤ)
        (doubt : Bool) → step founder limit past request reading ≡ (Refused (DiskFault doubt), after) → ⊥ }
    ensures turn { (founder : Key) (limit : Option ℕ) (before after : OfficeState) (turn : Turn) (doubt : Bool) →
        IsTurn founder limit before turn after → turn.reply ≡ Refused (DiskFault doubt) → 0 < turn.rise }
    ensures doubt { (founder : Key) (limit : Option ℕ) (before after : OfficeState) (turn : Turn) (reading : ℤ) →
        IsTurn founder limit before turn after → turn.reading ≡ Some reading → turn.reply ≡ Refused (DiskFault true) →
        IsSomeAnd after.doubt (λ entry. outcome founder limit after.settled turn.request reading ≡ Adds entry) }
{}

/// An act that was answered is in the settled history, under its caller's number, and the answer is that entry's. Since
/// settled histories only grow, and numbers stand for one entry, it stays there.
pub fn acknowledged_acts_are_kept()
    ensures { (founder : Key) (limit : Option ℕ) (before after : OfficeState) (turn : Turn) (text : List ℕ) →
        IsTurn founder limit before turn after → is_act turn.request.verb ≡ true → turn.reply ≡ Done text →
        (mended : List Entry) × Mends before.settled before.doubt mended ×
        IsAcknowledged founder mended turn.request text after.settled }
{}

/// Where the disk's count of faults rose in no turn and nothing was in doubt, nothing is, and the replies are those
/// of the step, one after another, or out of memory, and none is that the disk failed; where no turn ran out of memory,
/// they are those of the step.
pub fn no_faults()
    ensures settled { (founder : Key) (limit : Option ℕ) (past : List Entry) (after : OfficeState) (turns : List Turn) →
        Conduct founder limit (at_rest past) turns after → HadNoFault turns → after ≡ at_rest after.settled }
    ensures answered { (founder : Key) (limit : Option ℕ) (past : List Entry) (after : OfficeState)
        (turns : List Turn) →
        Conduct founder limit (at_rest past) turns after → HadNoFault turns →
        IsAnswered founder limit past turns after.settled }
    ensures none { (founder : Key) (limit : Option ℕ) (past : List Entry) (after : OfficeState) (turns : List Turn) →
        Conduct founder limit (at_rest past) turns after → HadNoFault turns → NoDiskFaults turns }
    ensures stepped { (founder : Key) (limit : Option ℕ) (past : List Entry) (after : OfficeState) (turns : List Turn) →
        Conduct founder limit (at_rest past) turns after → HadNoFault turns → HadMemory turns →
        IsStepped founder limit past turns after.settled }
{}

/// A history that the office makes of a legal one is legal: after one step, and after a conduct, with the act in
/// doubt and without. So is each that it makes from nothing, since the history without entries is legal.
pub fn histories_are_legal()
    ensures step { (founder : Key) (limit : Option ℕ) (past after : List Entry) (request : Request) (reading : ℤ)
        (reply : Reply) → IsLegal founder past → IsInstantNs reading →
        step founder limit past request reading ≡ (reply, after) → IsLegal founder after }
    ensures conduct { (founder : Key) (limit : Option ℕ) (before after : OfficeState) (turns : List Turn) →
        EitherWay (IsLegal founder) before → Conduct founder limit before turns after →
        EitherWay (IsLegal founder) after }
    ensures from_nothing { (founder : Key) (limit : Option ℕ) (after : OfficeState) (turns : List Turn) →
        Conduct founder limit (at_rest []) turns after → EitherWay (IsLegal founder) after }
{}

/// The founding officer's key finds a caller and does nothing else: a history that is legal under one key is
/// legal under every key that begins with a plus.
pub fn any_founder()
    ensures { (founder other : Key) (history : List Entry) →
        begins_with_plus (key_text other) ≡ true → IsLegal founder history → IsLegal other history }
{
    act_bodies::laws::enrol_keys_are_plain();
}

/// Each legal history is one that the office can come to: some turns make it from nothing.
pub fn legal_histories_are_reached()
    ensures { (founder : Key) (history : List Entry) →
        IsLegal founder history → (turns : List Turn) × Conduct founder None (at_rest []) turns (at_rest history) }
{}

/// What stood before the newest entries of a legal history was a legal history too.
pub fn prefixes_are_legal()
    ensures { (founder : Key) (earlier later : List Entry) →
        IsLegal founder later → Extends earlier later → IsLegal founder earlier }
{}

/// No two entries of a legal history have the same caller and number.
pub fn legal_numbers_once()
    ensures { (founder : Key) (history : List Entry) → IsLegal founder history → EachNumberOnce history }
{}

/// A caller keeps the number: a key stands for the same caller in every later legal history, since a key
/// that is on the roster isn't enrolled again.
pub fn callers_stay()
    ensures { (founder key : Key) (earlier later : List Entry) (caller : Caller) →
        IsLegal founder later → Extends earlier later →
        caller_of founder (members (deeds earlier)) key ≡ Some caller →
        caller_of founder (members (deeds later)) key ≡ Some caller }
{}

/// A kept reply doesn't change as a legal history grows. A number goes on to stand for the same
/// entry with the same history before it, of which the reply is worked out. So a request that was
/// done is answered with the text of that time whenever it is sent again, and leaves the history.
pub fn kept_replies_stay()
    ensures entry { (founder : Key) (earlier later : List Entry) (caller number : ℕ) (k : Kept) →
        IsLegal founder later → Extends earlier later →
        numbered_entry earlier caller number ≡ Some k → numbered_entry later caller number ≡ Some k }
    ensures resend { (founder : Key) (limit other : Option ℕ) (past later : List Entry) (request : Request)
        (first again : ℤ) (text : List ℕ) (entry : Entry) →
        step founder limit past request first ≡ (Done text, entry ∷ past) →
        IsLegal founder later → Extends (entry ∷ past) later →
        step founder other later request again ≡ (Done text, later) }
{}

/// Where nothing was found of the lines of a batch, none is taken in.
pub fn nothing_found()
    ensures { (lines : List Line) → taken_with lines [] ≡ [] }
{}

/// Each accepted observation stands in exactly one place: isolated, in one object, or retracted. The home of a
/// tracklet is a designation that the office gave, and a principal designation is its own.
pub fn one_place()
    ensures { (history : List Entry) → OnePlace history }
{
    tracklet_file::laws::one_place();
    identify_core::laws::equal_is_same();
    identify_core::laws::principals_stay_own();
    identify_core::laws::each_principal_once();
}

/// The catalogue has a line for each live observation, exactly one, and none for any other.
pub fn lists_live_once()
    ensures { (history : List Entry) → ListsEachOnce history }
{
    identify_core::laws::equal_is_same();
    identify_core::laws::principals_stay_own();
    identify_core::laws::each_principal_once();
}

/// An act adds to the accepted observations its own accepted lines, and takes none away.
pub fn acts_add_their_lines()
    ensures { (past : List Deed) (deed : Deed) → observations (deed ∷ past) ≡ observations past + added_by deed }
{}

/// Each accepted observation is of a year that designations have, retracted ones included.
pub fn observed_years()
    ensures { (history : List Entry) (k : ℕ) (o : Observation) →
        numbered (holdings (deeds history)).observations k ≡ Some o → is_in_years o.sighting ≡ true }
{}

/// An act that is done fits what was done before: what it names is there, a designation that it gives is the next one
/// of its half-month and wasn't given, numbers that it gives go on from the last one, each to an object without one,
/// and a half-month that it takes over wasn't begun, and none of the designations that it carries was given.
pub fn acts_fit()
    ensures { (history : List Entry) (moment : ℤ) (act : Act) (deed : Deed) →
        IsRead act → does (deeds history) moment act ≡ Ok deed → FitsObjects (deeds history) deed }
{
    act_bodies::laws::first_numbers_are_numbers();
    act_bodies::laws::openings_are_in_range();
    designate_core::laws::begun_rows();
    designate_core::laws::counts_grow();
    identify_core::laws::given_ascend();
}

/// In each half-month the designations that acts `designate` gave have the orders o + 1, o + 2, o + 3 and so on, in the
/// order in which they were given, where o is the half-month's opening count, and at most its limit. The orders that an
/// opening carried are at most o. No designation was given twice, by such an act or by being carried.
pub fn unbroken_rows()
    ensures { (history : List Entry) → UnbrokenRows history }
{
    act_bodies::laws::first_numbers_are_numbers();
    act_bodies::laws::openings_are_in_range();
    designate_core::laws::begun_rows();
    designate_core::laws::counts_grow();
    designate_core::laws::unbroken_rows();
    identify_core::laws::given_ascend();
}

/// A designation that an opening carried has no discovery, since no act of this office gave it: no line of the
/// catalogue has an asterisk for it.
pub fn carried_have_no_discovery()
    ensures none { (history : List Entry) (p : Provisional) → Contains (carried_by (deeds history)) p →
        discovery_of (ByHalf p) (row_acts_of (deeds history)) ≡ None }
    ensures star { (history : List Entry) (p : Provisional) (k : ℕ) → Contains (carried_by (deeds history)) p →
        is_discovery (deeds history) (ByHalf p) k ≡ false }
{
    act_bodies::laws::first_numbers_are_numbers();
    act_bodies::laws::openings_are_in_range();
    designate_core::laws::begun_rows();
    designate_core::laws::counts_grow();
    designate_core::laws::unbroken_rows();
    identify_core::laws::given_ascend();
}

/// Numbers run without a gap from the first one. No number was given twice, and no designation was numbered twice.
pub fn unbroken_numbers()
    ensures { (history : List Entry) → UnbrokenNumbers history }
{
    act_bodies::laws::first_numbers_are_numbers();
    act_bodies::laws::openings_are_in_range();
    designate_core::laws::begun_rows();
    designate_core::laws::counts_grow();
    identify_core::laws::given_ascend();
    numbering_core::laws::unbroken_numbers();
}

/// Each accepted observation is one that may be filed, retracted ones included: its fields are in their ranges, its
/// station has 3 bytes, its mode is taken, and a temporary designation is printed.
pub fn observations_are_filed()
    ensures { (history : List Entry) (k : ℕ) (o : Observation) →
        numbered (holdings (deeds history)).observations k ≡ Some o → IsFiled o.sighting }
{
    col80_format::laws::lines_in_range();
    ades_psv::laws::lines_in_range();
    act_bodies::laws::letters_are_printed();
    act_bodies::laws::stations_are_codes();
}

/// The station of each accepted observation is 3 letters or digits, retracted ones included.
pub fn stations_are_codes()
    ensures { (history : List Entry) (k : ℕ) (o : Observation) →
        numbered (holdings (deeds history)).observations k ≡ Some o →
        is_station_code (take o.sighting.station.len o.sighting.station.bytes) ≡ true }
{
    col80_format::laws::lines_in_range();
    ades_psv::laws::lines_in_range();
    act_bodies::laws::letters_are_printed();
    act_bodies::laws::stations_are_codes();
}

/// The letter that a word stands for in the office's tables is printed, and no mode has one of those of refused
/// records.
pub fn letters_are_printed()
    ensures { (history : List Entry) (kind : Kind) (word : Short) (letter : ℕ) →
        letter_of (tables_of (deeds history)).codes kind word ≡ Some letter → IsLetterOf kind letter }
{
    col80_format::laws::lines_in_range();
    ades_psv::laws::lines_in_range();
    act_bodies::laws::letters_are_printed();
    act_bodies::laws::stations_are_codes();
}

/// What the office gave and holds are names: a designation that was given, and its principal, is one that a half-month
/// has; a number that was given is one that a minor planet can have, and was given to a designation; and each tracklet
/// goes by a number, a designation, or a temporary designation that is printed.
pub fn names_are_names()
    ensures given { (history : List Entry) (d : Designation) →
        is_given (links_of (deeds history)) d ≡ true → IsDesignation d }
    ensures principal { (history : List Entry) (d p : Designation) →
        principal (links_of (deeds history)) d ≡ Some p → IsDesignation p }
    ensures number { (history : List Entry) (d : Designation) (n : Number) →
        number_of (numbers_of (deeds history)) d ≡ Some n → IsNumber n.0 }
    ensures numbered { (history : List Entry) (n : ℕ) (d : Designation) →
        named (numbers_of (deeds history)) n ≡ Some d → IsNumber n × IsDesignation d }
    ensures track { (history : List Entry) (t : ℕ) (tracklet : Tracklet) →
        numbered (holdings (deeds history)).tracklets t ≡ Some tracklet → IsTrackName tracklet.name }
{
    act_bodies::laws::first_numbers_are_numbers();
    act_bodies::laws::openings_are_in_range();
    designate_core::laws::begun_rows();
    designate_core::laws::counts_grow();
    act_bodies::laws::letters_are_printed();
    act_bodies::laws::stations_are_codes();
    ades_psv::laws::lines_in_range();
    col80_format::laws::lines_in_range();
    identify_core::laws::equal_is_same();
    identify_core::laws::given_ascend();
    identify_core::laws::principals_stay_own();
}
