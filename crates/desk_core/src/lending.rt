//! What the rules of acts on objects ask of the office.

use crate::office::Core;
use designate_core::Rows;
use identify_core::Links;
use numbering_core::Register;
use object_rules::Ledger;
use tracklet_file::TrackletFile;

impl Ledger for Core {
    ghost use Rattle.act_model.specs.Deeds.{deeds};

    ghost deeds = { λ core. deeds core.history };

    fn file(&self) -> &TrackletFile {
        act_model::laws::observed_years();
        self.held()
    }

    fn rows(&self) -> &Rows {
        self.objects().rows()
    }

    fn links(&self) -> &Links {
        self.objects().links()
    }

    fn register(&self) -> &Register {
        self.objects().register()
    }
}
