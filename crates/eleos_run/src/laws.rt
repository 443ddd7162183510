//! The laws of the logs of runs.

ghost use Rattle.eleos_run.specs.Laws.{StampsRise};

/// The stamps in the lines of each caller rise.
pub fn stamps_rise()
    ensures rise { StampsRise }
{}
