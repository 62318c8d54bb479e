// What holds of every list of requests: each function stands for the law that its contract states.
ghost use Rattle.account.specs.Laws.{CutsOfTimeDoNotMatter, OperatorsAreIndependent};
ghost use Rattle.account.specs.WorkedCalls.{WorkedCallsComeOut};

// However the time is cut into advances, nothing else changes.
pub(crate) fn cuts_of_time_do_not_matter()
    ensures { CutsOfTimeDoNotMatter }
{}

// What an operator is owed does not depend on the others.
pub(crate) fn operators_are_independent()
    ensures { OperatorsAreIndependent }
{}

// The definitions give each worked call its outcome.
pub(crate) fn worked_calls_come_out()
    ensures { WorkedCallsComeOut }
{}
