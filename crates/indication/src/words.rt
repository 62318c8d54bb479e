//! The words for what an indication says, and for its refusal.

ghost use Rattle.std.specs.Prelude.{◌≡◌, Some};
ghost use Rattle.indication.specs.Words.{kind_word, change_word, control_word, usage_word, layer_word, charge_text, term_text, mark_text, broken_rule, reason_text, fault_text};

use crate::entry::{Charge, Term, Usage};
use crate::fault::{Fault, Layer};
use crate::header::{Change, Kind, Mark, TariffControl};
use std::error::Error;
use std::fmt;

impl fmt::Display for Kind {
    ghost output = { λ kind. Some (kind_word kind) };

    fn fmt<W: fmt::Write>(&self, f: &mut fmt::Formatter<W>) -> fmt::Result {
        f.write_str(match self {
            Kind::Tariff => "tariff",
            Kind::AddOn => "add-on",
        })
    }
}

impl fmt::Display for Change {
    ghost output = { λ change. Some (change_word change) };

    fn fmt<W: fmt::Write>(&self, f: &mut fmt::Formatter<W>) -> fmt::Result {
        f.write_str(match self {
            Change::WithoutRestart => "without restart",
            Change::WithRestart => "with restart",
        })
    }
}

impl fmt::Display for TariffControl {
    ghost output = { λ control. Some (control_word control) };

    fn fmt<W: fmt::Write>(&self, f: &mut fmt::Formatter<W>) -> fmt::Result {
        f.write_str(match self {
            TariffControl::Cyclic => "cyclic",
            TariffControl::NonCyclic => "not cyclic",
        })
    }
}

impl fmt::Display for Usage {
    ghost output = { λ usage. Some (usage_word usage) };

    fn fmt<W: fmt::Write>(&self, f: &mut fmt::Formatter<W>) -> fmt::Result {
        f.write_str(match self {
            Usage::Periodic => "periodic",
            Usage::OneTime => "one-time",
            Usage::SetUp => "set-up",
            Usage::Attempt => "attempt",
            Usage::AddOn => "add-on",
        })
    }
}

/// What an entry's charge is taken for, and for how long where its use has a duration.
impl fmt::Display for Term {
    ghost output = { λ term. Some (term_text term) };

    fn fmt<W: fmt::Write>(&self, f: &mut fmt::Formatter<W>) -> fmt::Result {
        let Term { usage, duration } = self;
        match (usage, duration) {
            (Usage::SetUp | Usage::Attempt | Usage::AddOn, _) => write!(f, "{usage}"),
            (Usage::Periodic | Usage::OneTime, 0) => write!(f, "{usage}, without end"),
            (Usage::Periodic | Usage::OneTime, seconds) => write!(f, "{usage}, {seconds} s"),
        }
    }
}

impl fmt::Display for Charge {
    ghost output = { λ charge. Some (charge_text charge) };

    fn fmt<W: fmt::Write>(&self, f: &mut fmt::Formatter<W>) -> fmt::Result {
        write!(f, "size {}, step {}", self.size, self.step)
    }
}

/// A unit mark: its kind, and its letters where they are printable.
impl fmt::Display for Mark {
    ghost output = { λ mark. Some (mark_text mark) };

    fn fmt<W: fmt::Write>(&self, f: &mut fmt::Formatter<W>) -> fmt::Result {
        let Mark {
            kind,
            letters: [a, b, c],
        } = *self;
        if self
            .letters
            .iter()
            .all(|letter| matches!(letter, b' '..=b'~'))
        {
            let (a, b, c) = (a as char, b as char, c as char);
            write!(f, "{kind} \"{a}{b}{c}\"")
        } else {
            write!(f, "{kind} ({a}, {b}, {c})")
        }
    }
}

impl fmt::Display for Layer {
    ghost output = { λ layer. Some (layer_word layer) };

    fn fmt<W: fmt::Write>(&self, f: &mut fmt::Formatter<W>) -> fmt::Result {
        f.write_str(match self {
            Layer::Reader => "reader",
            Layer::Unit => "unit",
            Layer::Writer => "writer",
            Layer::Meter => "meter",
        })
    }
}

impl Fault {
    fn reason(self) -> &'static str
        ensures { result.now ≡ reason_text self }
    {
        match self {
            Fault::WrongLength(_) =>
                "the length is not that of a header and the entries that it counts",
            Fault::BrokenLayout(offset) => broken_rule(offset),
            Fault::EmptyTariff => "a tariff indication without an entry",
            Fault::WrongDuration(_) => "the use of this entry does not allow its duration",
            Fault::ForeignMark => "the mark is that of another charge unit",
            Fault::NotAdmitted(_) => "the unit does not admit this charge for its use",
            Fault::NoRoom(_) => "so many bytes are needed",
            Fault::TooManyIndications => "512 indications were accepted already",
            Fault::AddOnBeforeTariff => "this network has sent no tariff yet",
            Fault::NoCurrentTariff => "the first tariff of a network is a current one",
            Fault::TooManyNetworks => "a call has at most four networks",
            Fault::PastLimit(_) => "so many seconds are left",
        }
    }
}

// The rule that the byte at that offset breaks.
fn broken_rule(offset: usize) -> &'static str
    ensures { result.now ≡ broken_rule offset }
{
    match offset {
        0 | 1 => "a tariff has at most 6 entries, and an add-on is one entry",
        2 => "the kind is 1 for a tariff or 2 for an add-on",
        3 => "the change is 0 or 1, and 0 in an add-on",
        4 | 5 => "the control is 0 or 1, and 0 without a tariff",
        6 => "the quarter hour is 1 to 96 with a next tariff, and else 0",
        11 => "this byte is 0",
        _ => "the use is unknown or does not stand here",
    }
}

/// A refusal: its number, its layer, where it shows and why.
impl fmt::Display for Fault {
    ghost output = { λ fault. Some (fault_text fault) };

    fn fmt<W: fmt::Write>(&self, f: &mut fmt::Formatter<W>) -> fmt::Result {
        let number = self.number();
        let layer = self.layer();
        let offset = self.offset();
        let reason = self.reason();
        write!(
            f,
            "refused with {number} ({layer}) at offset {offset}: {reason}"
        )
    }
}

impl Error for Fault {}
