//! Laws of schedules.
ghost use Rattle.tsa_sched.specs.ScheduleLaws.{SchedulesAreAsWritten, SchedulesAreRead};

/// The picks of a text are those that spell it.
pub fn schedules_are_read()
    ensures { SchedulesAreRead }
{}

/// Texts of schedules have the picks that are written beside them, and other texts none.
pub fn schedules_are_as_written()
    ensures { SchedulesAreAsWritten }
{}
