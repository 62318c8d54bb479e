//! What the reader answers to an indication with some of its bytes changed.

use crate::bases::{ADD_ON, BOTH, Base, FULL, ONE, UNTAKEN};
use indication::header::Kind;
use lines::hexadecimal::decode;
use reader::Reader;
use std::process::Abort;
use std::test::Fail;

// The number and the offset of a refusal, as an exchange is told them; nothing is said of what is accepted.
type Answer = Result<(), (u8, usize)>;

// The bytes that are changed, each by its offset and its new value; the length that is read, with zeros past the
// base's own; and the answer.
struct Case(&'static [(usize, u8)], usize, Answer);

static ONE_CASES: [Case; 73] = [
    Case(&[], 33, Ok(())), // as it is
    // lengths
    Case(&[], 0, Err((1, 0))), // no byte
    Case(&[], 1, Err((1, 1))), // one byte
    Case(&[], 23, Err((1, 23))), // a header less a byte
    Case(&[], 24, Err((1, 24))), // a header alone
    Case(&[], 32, Err((1, 32))), // a byte short
    Case(&[], 34, Err((1, 33))), // a byte too long
    Case(&[], 132, Err((1, 33))), // as long as the longest
    Case(&[], 133, Err((1, 33))), // longer than the longest
    Case(&[(0, 2)], 33, Err((1, 33))), // two entries counted
    Case(&[(0, 0)], 33, Err((1, 24))), // no entry counted
    Case(&[(0, 0)], 23, Err((1, 23))), // an empty tariff less a byte
    Case(&[(0, 0)], 24, Err((3, 0))), // an empty tariff
    Case(&[(0, 0)], 25, Err((1, 24))), // an empty tariff and a byte
    Case(&[(0, 7)], 87, Err((2, 0))), // seven entries
    Case(&[(0, 7)], 86, Err((1, 86))), // seven entries, a byte short
    Case(&[(0, 7)], 88, Err((1, 87))), // seven entries, a byte too long
    Case(&[(0, 8)], 96, Err((2, 0))), // eight entries
    Case(&[(1, 7), (6, 1)], 96, Err((2, 1))), // seven next entries
    Case(&[(1, 7), (6, 1)], 33, Err((1, 33))), // seven next entries, not that long
    Case(&[(0, 255)], 2319, Err((2, 0))), // 255 entries
    Case(&[(1, 255)], 2328, Err((2, 1))), // 255 next entries
    Case(&[(0, 255), (1, 255)], 4614, Err((2, 0))), // 255 entries twice
    Case(&[(0, 255), (1, 255)], 4613, Err((1, 4613))), // 255 entries twice, a byte short
    Case(&[(0, 255), (1, 255)], 4615, Err((1, 4614))), // 255 entries twice, a byte too long
    // the header
    Case(&[(2, 0)], 33, Err((2, 2))), // kind 0
    Case(&[(2, 2)], 33, Err((2, 2))), // an add-on where a tariff is taken
    Case(&[(2, 3)], 33, Err((2, 2))), // kind 3
    Case(&[(2, 255)], 33, Err((2, 2))), // kind 255
    Case(&[(3, 1)], 33, Ok(())), // with restart
    Case(&[(3, 2)], 33, Err((2, 3))), // restart 2
    Case(&[(4, 1)], 33, Ok(())), // a current tariff that is not cyclic
    Case(&[(4, 2)], 33, Err((2, 4))), // current control 2
    Case(&[(5, 1)], 33, Err((2, 5))), // a control of no next tariff
    Case(&[(5, 2)], 33, Err((2, 5))), // next control 2 of no next tariff
    Case(&[(6, 1)], 33, Err((2, 6))), // quarter 1 of no next tariff
    Case(&[(6, 96)], 33, Err((2, 6))), // quarter 96 of no next tariff
    Case(&[(6, 97)], 33, Err((2, 6))), // quarter 97 of no next tariff
    Case(&[(7, 255), (8, 0), (9, 255), (10, 0)], 33, Ok(())), // any mark
    Case(&[(11, 1)], 33, Err((2, 11))), // the zero byte is 1
    Case(&[(11, 255)], 33, Err((2, 11))), // the zero byte is 255
    Case(&[(12, 255), (19, 255), (20, 255)], 33, Ok(())), // any network and reference
    Case(&[(24, 255), (27, 255), (28, 128), (29, 0)], 33, Ok(())), // any charge
    // a next tariff alone
    Case(&[(0, 0), (1, 1), (6, 1)], 33, Ok(())), // a next tariff alone
    Case(&[(0, 0), (1, 1), (5, 1), (6, 96)], 33, Ok(())), // a next tariff that is not cyclic
    Case(&[(0, 0), (1, 1), (4, 1), (6, 1)], 33, Err((2, 4))), // a control of no current tariff
    Case(&[(0, 0), (1, 1)], 33, Err((2, 6))), // a next tariff without a quarter
    // the use and its duration
    Case(&[(30, 2), (32, 0)], 33, Ok(())), // a set-up alone
    Case(&[(30, 3), (32, 0)], 33, Ok(())), // an attempt alone
    Case(&[(30, 4), (32, 0)], 33, Err((2, 30))), // the use of an add-on
    Case(&[(30, 5), (32, 0)], 33, Err((2, 30))), // use 5
    Case(&[(32, 0)], 33, Err((4, 31))), // one-time of 0 s
    Case(&[(32, 1)], 33, Ok(())), // one-time of 1 s
    Case(&[(31, 140), (32, 160)], 33, Ok(())), // one-time of 36000 s
    Case(&[(31, 140), (32, 161)], 33, Err((4, 31))), // one-time of 36001 s
    Case(&[(31, 255), (32, 255)], 33, Err((4, 31))), // one-time of 65535 s
    Case(&[(30, 0), (32, 0)], 33, Ok(())), // periodic without end
    Case(&[(30, 0), (32, 1)], 33, Ok(())), // periodic of 1 s
    Case(&[(30, 0), (31, 140), (32, 160)], 33, Ok(())), // periodic of 36000 s
    Case(&[(30, 0), (31, 140), (32, 161)], 33, Err((4, 31))), // periodic of 36001 s
    Case(&[(30, 2), (32, 1)], 33, Err((4, 31))), // a set-up of 1 s
    Case(&[(30, 2), (31, 140), (32, 160)], 33, Err((4, 31))), // a set-up of 36000 s
    Case(&[(30, 2), (31, 140), (32, 161)], 33, Err((4, 31))), // a set-up of 36001 s
    Case(&[(30, 3), (32, 1)], 33, Err((4, 31))), // an attempt of 1 s
    Case(&[(30, 3), (31, 140), (32, 160)], 33, Err((4, 31))), // an attempt of 36000 s
    Case(&[(30, 3), (31, 140), (32, 161)], 33, Err((4, 31))), // an attempt of 36001 s
    // several faults at once
    Case(&[(2, 3), (11, 1)], 32, Err((1, 32))), // a byte short, and kind 3
    Case(&[(2, 3), (11, 1)], 33, Err((2, 2))), // kind 3 and the zero byte
    Case(&[(0, 7), (2, 3)], 87, Err((2, 0))), // kind 3 and seven entries
    Case(&[(0, 2), (2, 2)], 42, Err((2, 0))), // an add-on not taken, with two entries
    Case(&[(11, 1), (30, 5), (31, 255)], 33, Err((2, 11))), // the zero byte, the use and the duration
    Case(&[(0, 0), (11, 1)], 24, Err((2, 11))), // an empty tariff and the zero byte
    Case(&[(0, 0), (6, 1)], 24, Err((2, 6))), // an empty tariff and a quarter
];

static BOTH_CASES: [Case; 46] = [
    Case(&[], 87, Ok(())), // as it is
    Case(&[], 86, Err((1, 86))), // a byte short
    Case(&[], 88, Err((1, 87))), // a byte too long
    // the header
    Case(&[(3, 0)], 87, Ok(())), // without restart
    Case(&[(3, 2)], 87, Err((2, 3))), // restart 2
    Case(&[(4, 1), (5, 1)], 87, Ok(())), // neither is cyclic
    Case(&[(4, 2)], 87, Err((2, 4))), // current control 2
    Case(&[(5, 2)], 87, Err((2, 5))), // next control 2
    Case(&[(6, 0)], 87, Err((2, 6))), // quarter 0
    Case(&[(6, 1)], 87, Ok(())), // quarter 1
    Case(&[(6, 96)], 87, Ok(())), // quarter 96
    Case(&[(6, 97)], 87, Err((2, 6))), // quarter 97
    Case(&[(6, 255)], 87, Err((2, 6))), // quarter 255
    // the order of uses
    Case(&[(69, 3)], 87, Err((2, 69))), // two attempts
    Case(&[(78, 3), (81, 3)], 87, Err((2, 81))), // two attempts in the next tariff
    Case(&[(78, 3)], 87, Ok(())), // an attempt and a subtariff
    Case(&[(72, 2)], 87, Err((2, 72))), // two set-ups
    Case(&[(81, 2)], 87, Err((2, 81))), // two set-ups in the next tariff
    Case(&[(66, 2), (69, 3)], 87, Err((2, 69))), // a set-up before an attempt
    Case(&[(66, 0), (68, 60)], 87, Err((2, 69))), // a subtariff before a set-up
    Case(&[(78, 0), (80, 60), (81, 3)], 87, Err((2, 81))), // a subtariff before an attempt
    Case(&[(72, 4)], 87, Err((2, 72))), // the use of an add-on
    Case(&[(84, 5)], 87, Err((2, 84))), // use 5
    Case(&[(66, 255)], 87, Err((2, 66))), // use 255
    // durations
    Case(&[(74, 0)], 87, Err((4, 73))), // a subtariff without end, and another
    Case(&[(81, 0), (83, 0)], 87, Err((4, 82))), // the same in the next tariff
    Case(&[(74, 1)], 87, Ok(())), // periodic of 1 s, and another
    Case(&[(73, 140), (74, 160)], 87, Ok(())), // periodic of 36000 s, and another
    Case(&[(73, 140), (74, 161)], 87, Err((4, 73))), // periodic of 36001 s, and another
    Case(&[(83, 0)], 87, Err((4, 82))), // one-time of 0 s, and another
    Case(&[(75, 1)], 87, Err((4, 76))), // the last is one-time of 0 s
    Case(&[(84, 1)], 87, Err((4, 85))), // the last of the next is one-time of 0 s
    Case(&[(77, 1)], 87, Ok(())), // the last is periodic of 1 s
    Case(&[(76, 140), (77, 160)], 87, Ok(())), // the last is periodic of 36000 s
    Case(&[(76, 140), (77, 161)], 87, Err((4, 76))), // the last is periodic of 36001 s
    Case(&[(85, 140), (86, 161)], 87, Err((4, 85))), // the last of the next is periodic of 36001 s
    Case(&[(68, 1)], 87, Err((4, 67))), // an attempt of 1 s
    Case(&[(71, 1)], 87, Err((4, 70))), // a set-up of 1 s
    Case(&[(79, 1)], 87, Err((4, 79))), // a set-up of 256 s in the next tariff
    // several faults at once
    Case(&[(2, 0), (6, 0), (66, 9), (73, 9)], 86, Err((1, 86))), // a byte short, and all else
    Case(&[(3, 2), (6, 0)], 87, Err((2, 3))), // the restart before the quarter
    Case(&[(6, 0), (66, 9)], 87, Err((2, 6))), // the quarter before a use
    Case(&[(84, 4), (78, 4)], 87, Err((2, 78))), // two wrong uses
    Case(&[(74, 0), (84, 4)], 87, Err((2, 84))), // a wrong use after a wrong duration
    Case(&[(83, 0), (74, 0)], 87, Err((4, 73))), // two wrong durations
    Case(&[(0, 3), (1, 4)], 87, Err((2, 78))), // three entries and four
];

static FULL_CASES: [Case; 14] = [
    Case(&[], 132, Ok(())), // as it is
    Case(&[], 131, Err((1, 131))), // a byte short
    Case(&[], 133, Err((1, 132))), // a byte too long
    Case(&[(0, 7)], 141, Err((2, 0))), // seven entries
    Case(&[(0, 7)], 132, Err((1, 132))), // seven entries, not that long
    Case(&[(1, 7)], 141, Err((2, 1))), // seven next entries
    Case(&[(1, 7)], 140, Err((1, 140))), // seven next entries, a byte short
    Case(&[(0, 7), (1, 7)], 150, Err((2, 0))), // seven entries twice
    Case(&[(0, 7), (1, 5)], 132, Err((2, 0))), // seven entries and five, as long as the longest
    Case(&[(0, 5), (1, 7)], 132, Err((2, 1))), // five entries and seven, as long as the longest
    Case(&[(99, 0), (101, 60)], 132, Err((2, 111))), // five subtariffs
    Case(&[(96, 0), (99, 0)], 132, Err((2, 108))), // six subtariffs
    Case(&[(117, 1), (119, 60)], 132, Err((2, 129))), // five subtariffs in the next tariff
    Case(&[(114, 0), (117, 1)], 132, Err((2, 126))), // six subtariffs in the next tariff
];

static ADD_ON_CASES: [Case; 31] = [
    Case(&[], 33, Ok(())), // as it is
    Case(&[], 32, Err((1, 32))), // a byte short
    Case(&[], 34, Err((1, 33))), // a byte too long
    Case(&[(0, 0)], 24, Err((2, 0))), // no entry
    Case(&[(0, 0)], 33, Err((1, 24))), // no entry, not that long
    Case(&[(0, 2)], 42, Err((2, 0))), // two entries
    Case(&[(0, 7)], 87, Err((2, 0))), // seven entries
    Case(&[(1, 1)], 42, Err((2, 1))), // a next entry
    Case(&[(0, 0), (1, 1)], 33, Err((2, 0))), // a next entry alone
    Case(&[(2, 0)], 33, Err((2, 2))), // kind 0
    Case(&[(2, 1), (30, 1), (32, 60)], 33, Err((2, 2))), // a tariff where an add-on is taken
    Case(&[(0, 0), (2, 1)], 24, Err((2, 2))), // an empty tariff where an add-on is taken
    Case(&[(0, 2), (2, 1)], 42, Err((2, 2))), // a tariff of two where an add-on is taken
    Case(&[(2, 3)], 33, Err((2, 2))), // kind 3
    Case(&[(3, 1)], 33, Err((2, 3))), // restart 1
    Case(&[(3, 2)], 33, Err((2, 3))), // restart 2
    Case(&[(4, 1)], 33, Err((2, 4))), // current control 1
    Case(&[(5, 1)], 33, Err((2, 5))), // next control 1
    Case(&[(6, 1)], 33, Err((2, 6))), // quarter 1
    Case(&[(7, 255), (8, 255), (9, 255), (10, 255)], 33, Ok(())), // any mark
    Case(&[(11, 1)], 33, Err((2, 11))), // the zero byte is 1
    Case(&[(12, 255), (20, 255), (24, 255), (28, 127)], 33, Ok(())), // any network, reference and charge
    Case(&[(30, 0)], 33, Err((2, 30))), // use 0
    Case(&[(30, 3)], 33, Err((2, 30))), // use 3
    Case(&[(30, 5)], 33, Err((2, 30))), // use 5
    Case(&[(32, 1)], 33, Err((4, 31))), // 1 s
    Case(&[(31, 140), (32, 160)], 33, Err((4, 31))), // 36000 s
    Case(&[(31, 140), (32, 161)], 33, Err((4, 31))), // 36001 s
    Case(&[(30, 0), (32, 1)], 33, Err((2, 30))), // use 0 and 1 s
    Case(&[(11, 1), (30, 0)], 33, Err((2, 11))), // the zero byte and use 0
    Case(&[(0, 0), (3, 1)], 24, Err((2, 0))), // restart 1 and no entry
];

// Add-ons where a tariff is taken.
static UNTAKEN_CASES: [Case; 4] = [
    Case(&[], 33, Err((2, 2))), // an add-on where a tariff is taken
    Case(&[(0, 2)], 42, Err((2, 0))), // the same with a fault before it
    Case(&[(3, 1)], 33, Err((2, 2))), // the same with a fault after it
    Case(&[], 32, Err((1, 32))), // the same, too short
];

const ROOM: usize = 4615;

fn changed(text: &[u8], changes: &[(usize, u8)]) -> Result<[u8; ROOM], Fail> {
    // room that is lent to the decoder
    let mut bytes = [0u8; ROOM];
    decode(text, &mut bytes)?;
    for (offset, byte) in changes {
        if let Some(place) = bytes.get_mut(*offset) {
            *place = *byte;
        }
    }
    Ok(bytes)
}

fn answer(bytes: &[u8], taken: Kind) -> Answer {
    Reader::read(bytes, taken)
        .map(|_| ())
        .map_err(|fault| (fault.number(), fault.offset()))
}

// A handle to assert by, and what is asserted on.
fn run_case(rt: &impl Abort, base: Base, case: &Case) -> Result<(), Fail> {
    let Base { name, text, taken } = base;
    let Case(changes, length, expected) = case;
    let buffer = changed(text, changes)?;
    let Some(bytes) = buffer.get(0..*length) else {
        return Err(Fail::new("the case is too long"));
    };
    assert_eq!(rt;
        answer(bytes, taken),
        *expected,
        "{name}: {changes:?}, {length} bytes"
    );
    Ok(())
}

fn run(rt: &impl Abort, base: Base, cases: &[Case]) -> Result<(), Fail> {
    for case in cases {
        run_case(rt, base, case)?;
    }
    Ok(())
}

#[test]
fn tariffs(rt: HostRuntime) -> Result<(), Fail> {
    run(&rt, ONE, &ONE_CASES)?;
    run(&rt, BOTH, &BOTH_CASES)?;
    run(&rt, FULL, &FULL_CASES)
}

#[test]
fn add_ons(rt: HostRuntime) -> Result<(), Fail> {
    run(&rt, ADD_ON, &ADD_ON_CASES)?;
    run(&rt, UNTAKEN, &UNTAKEN_CASES)
}
