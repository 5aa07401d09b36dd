//! What the rules ask of an office.

ghost use Rattle.std.specs.Prelude.{◌≡◌, List};
ghost use Rattle.act_model.specs.declared.deed.Deed.{Deed};
ghost use Rattle.identify_core.specs.Principals.{StandFor as LinksStandFor};
ghost use Rattle.numbering_core.specs.Verdicts.{StandFor as VerdictsStandFor};
ghost use Rattle.act_model.specs.Holdings.{holdings};
ghost use Rattle.act_model.specs.Designations.{row_acts_of, links_of};
ghost use Rattle.act_model.specs.Verdicts.{verdicts_of};
ghost use Rattle.act_model.specs.Numbers.{numbers_of};
ghost use Rattle.object_rules.specs.Seeing.{FileIsOfYears};

use designate_core::Rows;
use identify_core::Links;
use numbering_core::Register;
use tracklet_file::TrackletFile;

/// An office that has a file of observations, rows of designations, links and a register.
pub trait Ledger {
    /// The deeds that they stand for, the newest first.
    ghost deeds: { Self → List Deed };

    /// The observations and tracklets.
    fn file(&self) -> &TrackletFile
        ensures observations { result.now.observations ≡ (holdings (deeds self.now)).observations }
        ensures tracklets { result.now.tracklets ≡ (holdings (deeds self.now)).tracklets }
        ensures years { FileIsOfYears result.now.observations };

    /// The designations that were given.
    fn rows(&self) -> &Rows
        ensures { result.now.acts ≡ row_acts_of (deeds self.now) };

    /// The principals of designations.
    fn links(&self) -> &Links
        ensures { LinksStandFor result.now.links (links_of (deeds self.now)) };

    /// The verdicts in force and the numbers that were given.
    fn register(&self) -> &Register
        ensures verdicts { VerdictsStandFor result.now.verdicts (verdicts_of (deeds self.now)) }
        ensures numbered { result.now.numbered ≡ numbers_of (deeds self.now) };
}
