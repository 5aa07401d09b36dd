//! The laws of the crates below, together.

ghost use Rattle.comets_command.specs.Laws.{RegisterLaws, DamageLaws};

use act_model::laws as office_laws;
use comet_model::laws as register_laws;

/// What is known of registers, their conducts and the readings of a clock.
pub fn registers()
    ensures { RegisterLaws }
{
    office_laws::readings_go_on();
    register_laws::registers_are_legal();
    register_laws::registers_grow();
    register_laws::numbers_once();
    register_laws::unbroken_names();
    register_laws::acknowledged_acts_are_kept();
    register_laws::no_faults();
}

/// What is known of files that are damaged.
pub fn damage()
    ensures { DamageLaws }
{
    office_laws::any_founder();
    mpc_desk::laws::one_history();
    mpc_desk::laws::damage();
    comet_desk::laws::damage();
}
