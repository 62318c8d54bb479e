ghost use Rattle.account.specs.Outcomes.{answer_ahead, answer_for};
ghost use Rattle.std.specs.Prelude.{◌≡◌};

use indication::fault::Fault;
use record::statement::StatementLine;

/// What a request is answered.
#[derive(Clone, Copy, PartialEq, Eq, Debug)]
pub enum Answer {
    /// the phase of the call does not allow the request
    NotAllowed,
    Refused(Fault),
    /// an indication, an advance, a start or a release is accepted
    Accepted,
    /// what a network is owed or would be; none for one that the call does not know
    Owed(Option<u64>),
    /// what all networks are owed together
    Total(u64),
    /// a line of the statement; none past the last
    Line(Option<StatementLine>),
}

/// What an indication or an advance is answered.
impl From<Result<(), Fault>> for Answer {
    ghost from_gives = { λ outcome answer. answer ≡ answer_for outcome };

    fn from(outcome: Result<(), Fault>) -> Answer {
        outcome.map_or_else(Answer::Refused, |()| Answer::Accepted)
    }
}

/// What a look-ahead is answered.
impl From<Result<Option<u64>, Fault>> for Answer {
    ghost from_gives = { λ outcome answer. answer ≡ answer_ahead outcome };

    fn from(outcome: Result<Option<u64>, Fault>) -> Answer {
        outcome.map_or_else(Answer::Refused, Answer::Owed)
    }
}
