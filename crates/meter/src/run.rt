ghost use Rattle.std.specs.Prelude.{◌%◌, map, reverse, IfOk};
ghost use Rattle.meter.specs.Meters.{Accounted, asked};

use crate::meter::{Meter, perform};
use crate::request::Request;
use account::answer::Answer;
use record::call::Call;
use std::alloc::{AllocError, Global};
use units::unit::Bounded;

/// Performs a list of requests on a meter that is opened for it; returns the answers, and the record at the end.
// unit and second are what opens a call, here as in `Meter::open`
pub fn run<U: Bounded + Drop>(
    heap: Global,
    unit: U,
    second: u32,
    requests: &[Request],
) -> Result<(Vec<Answer>, Call), AllocError>
    ensures { IfOk result (λ p. Accounted (U.Unit.meaning unit) (second % 86400) (reverse (map asked requests.now)) (reverse p.0.items) p.1) }
{
    let mut answers = Vec::new(heap);
    let mut meter = Meter::open(unit, second);
    for request in requests {
        let (next, answer) = perform(meter, *request);
        meter = next;
        answers.push(answer)?;
    }
    Ok((answers, meter.record()))
}
