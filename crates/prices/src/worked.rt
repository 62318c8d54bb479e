//! Prices that were worked out by hand.

use crate::primes::Primes;
use indication::entry::{Charge, Usage};
use indication::header::TariffControl;
use std::process::Abort;
use tariffs::tariff::{Charging, Subtariff, Tariff};
use units::currency::Currency;
use units::limit::PriceLimit;
use units::pulses::Pulses;
use units::unit::Bounded;

// A stretch of a tariff and what it costs.
#[derive(Clone, Copy)]
struct Case {
    from: u32,
    seconds: u32,
    price: u64,
}

fn check_cases<U: Bounded>(rt: &impl Abort, tariff: &Tariff, unit: &U, cases: &[Case]) {
    for case in cases {
        assert_eq!(rt;
            tariff.price_of_stretch(unit, case.from, case.seconds),
            Some(case.price)
        );
    }
}

fn subtariff(charging: Charging, duration: u16, size: u32, step: i16) -> Option<Subtariff> {
    let charge = Charge { size, step };
    Some(Subtariff {
        charge,
        charging,
        duration,
    })
}

fn tariff(control: TariffControl, subtariffs: [Option<Subtariff>; 4]) -> Tariff {
    Tariff {
        attempt: None,
        set_up: None,
        control,
        subtariffs,
    }
}

fn costs(from: u32, seconds: u32, price: u64) -> Case {
    Case {
        from,
        seconds,
        price,
    }
}

#[test]
fn one_time_rounds(rt: HostRuntime) {
    let slots = [
        subtariff(Charging::OneTime, 60, 108333, -7),
        None,
        None,
        None,
    ];
    let unit = PriceLimit { unit: Currency };
    let cases = [
        costs(0, 0, 0),
        costs(0, 60, 6499980),
        costs(0, 61, 12999960),
        costs(1, 59, 0),
        costs(59, 2, 6499980),
        costs(60, 86400, 1440 * 6499980),
        costs(1, 86400, 1440 * 6499980),
    ];
    check_cases(&rt, &tariff(TariffControl::Cyclic, slots), &unit, &cases);
    // not cyclic: the first minute only
    let once = [costs(0, 86400, 6499980), costs(60, 86400, 0)];
    check_cases(&rt, &tariff(TariffControl::NonCyclic, slots), &unit, &once);
}

#[test]
fn pulses(rt: HostRuntime) {
    let slots = [subtariff(Charging::Periodic, 0, 1, 20), None, None, None];
    let unit = PriceLimit { unit: Pulses };
    let cases = [
        costs(0, 20, 1),
        costs(0, 21, 2),
        // the interval is counted from the start of the subtariff, not of the stretch
        costs(1, 19, 0),
        costs(1, 20, 1),
        costs(40, 1, 1),
    ];
    check_cases(&rt, &tariff(TariffControl::Cyclic, slots), &unit, &cases);
}

#[test]
fn sequences(rt: HostRuntime) {
    // 40 s at 10 a second, then 1 a second without end
    let slots = [
        subtariff(Charging::Periodic, 40, 10, -7),
        subtariff(Charging::Periodic, 0, 1, -7),
        None,
        None,
    ];
    let unit = PriceLimit { unit: Currency };
    let cases = [
        costs(0, 20, 200),
        costs(30, 20, 110),
        costs(40, 20, 20),
        costs(0, 86400, 400 + 86360),
    ];
    check_cases(&rt, &tariff(TariffControl::Cyclic, slots), &unit, &cases);
    // 3 s at 10, 2 s one-time at 7, and round again: 30 + 14 in 5 s
    let slots = [
        subtariff(Charging::Periodic, 3, 10, -7),
        subtariff(Charging::OneTime, 2, 7, -7),
        None,
        None,
    ];
    let cases = [
        costs(0, 5, 44),
        costs(2, 2, 24),
        costs(4, 2, 10),
        costs(4, 14, 10 * 9 + 14 * 2),
        costs(5, 86400, 17280 * 44),
    ];
    check_cases(&rt, &tariff(TariffControl::Cyclic, slots), &unit, &cases);
    // nothing to charge
    check_cases(
        &rt,
        &tariff(TariffControl::Cyclic, [None; 4]),
        &unit,
        &[costs(0, 86400, 0)],
    );
}

#[test]
fn primes_below_100(rt: HostRuntime) {
    let unit = PriceLimit { unit: Primes };
    let slots = [subtariff(Charging::Periodic, 0, 3, 0), None, None, None];
    let cases = [
        costs(0, 100, 75),
        costs(0, 86400, 75),
        costs(90, 8, 3),
        costs(98, 86400, 0),
    ];
    check_cases(&rt, &tariff(TariffControl::Cyclic, slots), &unit, &cases);
    // in rounds of 10: 2, 3, 5 and 7 in each
    let slots = [subtariff(Charging::Periodic, 10, 3, 0), None, None, None];
    let cases = [costs(0, 10, 12), costs(0, 86400, 8640 * 12), costs(6, 7, 6)];
    check_cases(&rt, &tariff(TariffControl::Cyclic, slots), &unit, &cases);
}

#[test]
fn admissions(rt: HostRuntime) {
    let unit = PriceLimit { unit: Currency };
    assert!(rt; unit.admits(Charge { size: 1, step: 2 }, Usage::Periodic));
    assert!(rt; !unit.admits(Charge { size: 1, step: 3 }, Usage::Periodic));
    assert!(rt;
        !unit.admits(
            Charge {
                size: 1000000,
                step: -7,
            },
            Usage::Periodic,
        )
    );
    let unit = PriceLimit { unit: Pulses };
    assert!(rt;
        unit.admits(
            Charge {
                size: 255,
                step: 7200,
            },
            Usage::Periodic,
        )
    );
    assert!(rt; !unit.admits(Charge { size: 255, step: 0 }, Usage::Periodic));
    assert!(rt; unit.admits(Charge { size: 255, step: 0 }, Usage::SetUp));
    assert!(rt; !unit.admits(Charge { size: 256, step: 0 }, Usage::SetUp));
}
