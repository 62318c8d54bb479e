//! What the writer writes, and what it refuses.

use crate::bases::{ADD_ON, BOTH, Base, FULL, ONE};
use Usage::{AddOn, Attempt, OneTime, Periodic, SetUp};
use indication::entries::Entries;
use indication::entry::{Charge, Entry, Term, Usage};
use indication::header::{Change, Header, Kind, Mark, TariffControl};
use indication::value::Indication;
use lines::hexadecimal::decode;
use reader::Reader;
use std::process::Abort;
use std::test::Fail;

const ROOM: usize = 140;

// What stands in a buffer before it is written to.
const FILL: u8 = 170;

// How many bytes were written, or the number and the offset of the refusal, as the table of refusals has them.
type Answer = Result<usize, (u8, usize)>;

// Writes into the first `room` bytes of the buffer.
fn written(indication: &Indication, buffer: &mut [u8], room: usize) -> Answer {
    let room = room.min(buffer.len());
    writer::write(indication, &mut buffer[0..room]).map_err(|fault| (
        fault.number(),
        fault.offset(),
    ))
}

// Whether the buffer has the bytes at its front, and is else as it was.
fn holds(buffer: &[u8], bytes: &[u8]) -> bool {
    buffer
        .strip_prefix(bytes)
        .is_some_and(|rest| rest.iter().all(|byte| *byte == FILL))
}

// Writes into a buffer with so much room, and checks the answer and what then stands at its front.
fn writes(
    rt: &impl Abort,
    name: &str,
    indication: &Indication,
    room: usize,
    answer: Answer,
    bytes: &[u8],
) {
    // room that is lent to the writer
    let mut buffer = [FILL; ROOM];
    assert_eq!(rt;
        written(indication, &mut buffer, room),
        answer,
        "{name}, room for {room}"
    );
    assert!(rt;
        holds(&buffer, bytes),
        "{name}, room for {room}: the buffer"
    );
}

fn round_trip(rt: &impl Abort, base: Base) -> Result<(), Fail> {
    let Base { name, text, taken } = base;
    // room that is lent to the decoder
    let mut buffer = [0u8; ROOM];
    let length = decode(text, &mut buffer)?;
    let bytes = &buffer[0..length];
    let Ok(reader) = Reader::read(bytes, taken) else {
        return Err(Fail::new("the reader refuses it"));
    };
    let indication = reader.indication();
    writes(rt, name, &indication, ROOM, Ok(length), bytes);
    writes(rt, name, &indication, length, Ok(length), bytes);
    let refusal = Err((7, length));
    writes(
        rt,
        name,
        &indication,
        length.saturating_sub(1),
        refusal,
        &[],
    );
    writes(rt, name, &indication, 0, refusal, &[]);
    Ok(())
}

#[test]
fn round_trips(rt: HostRuntime) -> Result<(), Fail> {
    round_trip(&rt, ONE)?;
    round_trip(&rt, BOTH)?;
    round_trip(&rt, FULL)?;
    round_trip(&rt, ADD_ON)
}

const MARK: Mark = Mark {
    kind: 0,
    letters: [b'E', b'U', b'R'],
};

const TARIFF: Header = Header {
    kind: Kind::Tariff,
    change: Change::WithoutRestart,
    current_control: TariffControl::Cyclic,
    next_control: TariffControl::Cyclic,
    quarter: 0,
    mark: MARK,
    network: 54,
    reference: 1,
};

const QUARTER_1: Header = Header {
    quarter: 1,
    ..TARIFF
};

const QUARTER_97: Header = Header {
    quarter: 97,
    ..TARIFF
};

const CURRENT_ONCE: Header = Header {
    current_control: TariffControl::NonCyclic,
    ..QUARTER_1
};

const NEXT_ONCE: Header = Header {
    next_control: TariffControl::NonCyclic,
    ..TARIFF
};

const ADDED: Header = Header {
    kind: Kind::AddOn,
    ..TARIFF
};

const ADDED_LATER: Header = Header {
    kind: Kind::AddOn,
    ..QUARTER_1
};

const ADDED_ANEW: Header = Header {
    change: Change::WithRestart,
    ..ADDED
};

// Uses with their durations.
type Terms = &'static [(Usage, u16)];

// The header, the terms of the current and of the next tariff, and the refusal.
struct Value(Header, Terms, Terms, (u8, usize));

static REFUSED: [Value; 25] = [
    // the header
    Value(QUARTER_1, &[(OneTime, 60)], &[], (2, 6)), // a quarter without a next tariff
    Value(TARIFF, &[(OneTime, 60)], &[(Periodic, 0)], (2, 6)), // and the other way round
    Value(QUARTER_97, &[(OneTime, 60)], &[(Periodic, 0)], (2, 6)),
    Value(CURRENT_ONCE, &[], &[(Periodic, 0)], (2, 4)), // a control of no tariff
    Value(NEXT_ONCE, &[(Periodic, 0)], &[], (2, 5)),
    Value(TARIFF, &[], &[], (3, 0)), // an empty tariff
    Value(QUARTER_1, &[], &[], (2, 6)),
    // the order of uses
    Value(TARIFF, &[(Periodic, 60), (SetUp, 0)], &[], (2, 39)),
    Value(TARIFF, &[(SetUp, 0), (Attempt, 0)], &[], (2, 39)),
    Value(TARIFF, &[(Attempt, 0), (Attempt, 0)], &[], (2, 39)),
    Value(TARIFF, &[(OneTime, 60); 5], &[], (2, 66)),
    Value(TARIFF, &[(AddOn, 0)], &[], (2, 30)),
    // durations
    Value(TARIFF, &[(OneTime, 0)], &[], (4, 31)),
    Value(TARIFF, &[(OneTime, 36001)], &[], (4, 31)),
    Value(TARIFF, &[(SetUp, 1)], &[], (4, 31)),
    Value(TARIFF, &[(Periodic, 0), (Periodic, 60)], &[], (4, 37)),
    Value(QUARTER_1, &[(Periodic, 0)], &[(OneTime, 0)], (4, 40)),
    Value(TARIFF, &[(SetUp, 1), (Attempt, 0)], &[], (2, 39)), // a wrong use after a wrong duration
    // add-ons
    Value(ADDED, &[], &[], (2, 0)),
    Value(ADDED, &[(AddOn, 0), (AddOn, 0)], &[], (2, 0)),
    Value(ADDED, &[(AddOn, 0)], &[(AddOn, 0)], (2, 1)),
    Value(ADDED_ANEW, &[(AddOn, 0)], &[], (2, 3)),
    Value(ADDED_LATER, &[(AddOn, 0)], &[], (2, 6)),
    Value(ADDED, &[(SetUp, 0)], &[], (2, 30)),
    Value(ADDED, &[(AddOn, 1)], &[], (4, 31)),
];

fn entries(terms: &[(Usage, u16)]) -> Entries {
    let mut entries = Entries::new();
    for (usage, duration) in terms {
        let charge = Charge { size: 1, step: 0 };
        let term = Term {
            usage: *usage,
            duration: *duration,
        };
        let _ = entries.push(Entry { charge, term });
    }
    entries
}

#[test]
fn refuses(rt: HostRuntime) -> Result<(), Fail> {
    // the number is the name of the case
    for (i, value) in REFUSED.iter().enumerate() {
        let Value(header, current, next, refusal) = value;
        let indication = Indication {
            header: *header,
            current: entries(current),
            next: entries(next),
        };
        let name = format!(in rt.alloc(); "value {i}")?;
        writes(&rt, name.as_str(), &indication, ROOM, Err(*refusal), &[]);
        writes(&rt, name.as_str(), &indication, 0, Err(*refusal), &[]);
    }
    Ok(())
}
