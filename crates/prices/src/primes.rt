//! A charge unit of the tests' own: its charges are taken at the offsets that are primes below 100.

ghost use Rattle.prices.specs.Primes.{is_prime, primes};
ghost use Rattle.units.specs.Meanings.{counted};
ghost use Rattle.std.specs.Prelude.{◌≡◌};
ghost use Rattle.std.proofs.Common.{arith};
ghost use Rattle.std.proofs.lemmas.Bool.{and_left};
ghost use Rattle.std.proofs.lemmas.Bool.Decides.{nat_tests};
ghost use Rattle.indication.specs.declared.entry.Usage.TheVariants.{Periodic};

use indication::entry::{Charge, Usage};
use indication::header::Mark;
use units::unit::Unit;

#[derive(Clone, Copy)]
pub struct Primes;

fn is_prime(offset: u32) -> bool
    ensures { result ≡ is_prime offset }
{
    matches!(
        offset,
        2 | 3
            | 5
            | 7
            | 11
            | 13
            | 17
            | 19
            | 23
            | 29
            | 31
            | 37
            | 41
            | 43
            | 47
            | 53
            | 59
            | 61
            | 67
            | 71
            | 73
            | 79
            | 83
            | 89
            | 97
    )
}

// How many of the `count` numbers from `from` on are primes below 100. None is past that, so the range is short.
fn primes_within(from: u32, count: u32) -> u32
    ensures { result ≡ counted is_prime from count }
{
    let end = from.saturating_add(count).min(100);
    (from..end).filter(|offset| is_prime(*offset)).count() as u32
}

impl Unit for Primes {
    ghost meaning = { λ _. primes };

    ghost sound = { λ x.
        record {
          price_bound = λ c. Prim.grind (arith, nat_tests);
          lump_low = λ c d h. Prim.grind (arith, nat_tests);
          lump_high = λ c d. Prim.grind (arith, nat_tests);
          lump_none = λ c d h. Prim.grind (arith, nat_tests);
          misfit_price = λ c no_use. let one = no_use Periodic in Prim.grind (arith, nat_tests);
          misfit_ticks = λ c no_use j. and_left _ _ (no_use Periodic);
          misfit_lump = λ c no_use d h. Prim.grind (arith, nat_tests);
        } };

    fn owns(&self, mark: Mark) -> bool {
        mark.kind == 9
    }

    fn fits(&self, charge: Charge, _usage: Usage) -> bool {
        charge.size <= 1000
    }

    fn price(&self, charge: Charge) -> u64 {
        if charge.size <= 1000 {
            u64::from(charge.size)
        } else {
            0
        }
    }

    fn ticks(&self, charge: Charge, from: u32, count: u32) -> u32 {
        if charge.size <= 1000 {
            primes_within(from, count)
        } else {
            0
        }
    }

    // Word for word the lump of pulses: each unit states its own, and a function in common would need a clause of its own.
    fn lump(&self, _charge: Charge, duration: u16) -> u16 {
        u16::from((1..=36000).contains(&duration))
    }
}
