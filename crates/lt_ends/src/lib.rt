//! Each run of a graph is over; the function does nothing, and its contract is the law, which `specs/Gauge.antt` says.
#![tactic(auto)]

ghost use Rattle.lt_ends.specs.Gauge.{StepsLowerTheGauge, RunsAreOver};

/// Each step of a run that goes on lowers the gauge of its state, so each run is over.
pub fn runs_are_over()
    ensures lower { StepsLowerTheGauge }
    ensures over { RunsAreOver }
{}
