ghost use Rattle.tariffs.specs.Making.{first_charge, slotted, subtariff_of, tariff_of};
ghost use Rattle.tariffs.specs.Sequences.{listed};
ghost use Rattle.std.specs.Prelude.{◌≡◌, map};

use crate::tariff::{Charging, Subtariff, Tariff};
use indication::entry::{Charge, Entry, Usage};
use indication::header::TariffControl;

impl Tariff {
    /// The tariff that the entries of an indication say.
    pub fn of(control: TariffControl, entries: &[Entry]) -> Tariff
        ensures { result ≡ tariff_of control entries.now }
    {
        Tariff {
            attempt: first_charge(entries, Usage::Attempt),
            set_up: first_charge(entries, Usage::SetUp),
            control,
            subtariffs: first_subtariffs(entries),
        }
    }
}

fn first_charge(entries: &[Entry], usage: Usage) -> Option<Charge>
    ensures { result ≡ first_charge usage entries.now }
{
    entries
        .iter()
        .find(|entry| entry.term.usage == usage)
        .map(|entry| entry.charge)
}

// An `Option` and no `TryFrom`: an entry that is no subtariff is no error.
fn subtariff_of(entry: Entry) -> Option<Subtariff>
    ensures { result ≡ subtariff_of entry }
{
    let charging = match entry.term.usage {
        Usage::Periodic => Charging::Periodic,
        Usage::OneTime => Charging::OneTime,
        Usage::SetUp | Usage::Attempt | Usage::AddOn => return None,
    };
    Some(Subtariff {
        charge: entry.charge,
        charging,
        duration: entry.term.duration,
    })
}

// The first four subtariffs, in the first slots.
fn first_subtariffs(entries: &[Entry]) -> [Option<Subtariff>; 4]
    ensures { result ≡ slotted 4 (listed (map subtariff_of entries.now)) }
{
    let mut slots = [None; 4];
    let subtariffs = entries.iter().filter_map(|entry| subtariff_of(*entry));
    // by index: of what is written through `slots.iter_mut().zip(..)` a proof knows nothing after the loop
    for (i, subtariff) in subtariffs.take(4).enumerate() {
        slots[i] = Some(subtariff);
    }
    slots
}
