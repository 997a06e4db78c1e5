//! The law of written schedules.
ghost use Rattle.tsa_mean.specs.Schedules.{AcceptedUnitsRunSafely, TransfersCanStart};

/// Units that `check` accepts, run by two threads under three schedules each, tell of no violation.
pub fn accepted_units_run_safely()
    ensures { AcceptedUnitsRunSafely }
{}

/// Two threads can begin with transfers between two accounts, one each way: this is a start of the unit.
pub fn transfers_can_start()
    ensures { TransfersCanStart }
{}
