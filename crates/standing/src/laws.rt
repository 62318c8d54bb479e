// What ties the record to the account: each function stands for the law that its contract states.
ghost use Rattle.standing.specs.Steps.{NoRequestsOpened, RecordShowsTheKnown, RulesKeepTheRecord, SumsFit};

// A call of no requests has just been opened.
pub(crate) fn no_requests_opened()
    ensures { NoRequestsOpened }
{}

// One more accepted request changes the record by its rule.
pub(crate) fn rules_keep_the_record()
    ensures { RulesKeepTheRecord }
{}

// What all operators are owed together fits 64 bits.
pub(crate) fn sums_fit()
    ensures { SumsFit }
{}

// The record shows whom the call knows.
pub(crate) fn record_shows_the_known()
    ensures { RecordShowsTheKnown }
{}
