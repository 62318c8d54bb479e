//! The refusals that the record of a call gives are those of the journal. Each function stands for the law that its contract
//! states.

#![tactic(auto)]

ghost use Rattle.hearing.specs.Hearing.{RefusalsAreHeard, WhatIsSaidIsAdmitted};

// The record refuses what the journal refuses, with the same refusal.
pub(crate) fn refusals_are_heard()
    ensures { RefusalsAreHeard }
{}

// An indication that is read has only charges that its unit admits.
pub(crate) fn what_is_said_is_admitted()
    ensures { WhatIsSaidIsAdmitted }
{}
