//! What the record of a call tells, against what the definitions answer: each function stands for the law that its
//! contract states.

#![tactic(auto)]

ghost use Rattle.told.specs.Telling.{LineTold, OwedTold, TotalTold};

// The seats tell what a network is owed.
pub(crate) fn owed_told()
    ensures { OwedTold }
{}

// The seats tell the total.
pub(crate) fn total_told()
    ensures { TotalTold }
{}

// The seats tell each line of the statement.
pub(crate) fn line_told()
    ensures { LineTold }
{}
