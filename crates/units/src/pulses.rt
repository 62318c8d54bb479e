ghost use Rattle.std.specs.Prelude.{◌≡◌, ◌%◌, ◌<◌, nat_eq};
ghost use Rattle.units.specs.Meanings.{counted};
ghost use Rattle.units.specs.PulseCounts.{multiples, pulses, stepped};
ghost use Rattle.std.proofs.Common.{arith};
ghost use Rattle.std.proofs.lemmas.Int.{ints};
ghost use Rattle.std.proofs.lemmas.Bool.Decides.{nat_tests};
ghost use Rattle.indication.specs.declared.entry.Usage.TheVariants.{Periodic, OneTime};

use crate::unit::Unit;
use indication::entry::{Charge, Usage};
use indication::header::Mark;

/// Pulses, each worth one.
#[derive(Clone, Copy)]
pub struct Pulses;

const PULSES: Mark = Mark {
    kind: 1,
    letters: [0; 3],
};

// Whether there are at most 255 pulses, and a step from `low` to `high`; by `contains`, `ticks` takes half as long again.
fn in_steps(charge: Charge, low: i16, high: i16) -> bool
    ensures { result ≡ stepped low high charge }
{
    charge.size <= 255 && charge.step >= low && charge.step <= high
}

// How many multiples of the interval lie below `end`.
fn multiples_below(end: u64, interval: u64) -> u64
    requires { 0 < interval }
    ensures { result ≡ multiples interval end }
{
    end.div_ceil(interval)
}

// How many of the `count` numbers from `from` on are multiples of the interval.
fn multiples_within(from: u32, count: u32, interval: u64) -> u32
    requires { 0 < interval }
    ensures { result ≡ counted (λ j. nat_eq (j % interval) 0) from count }
{
    let from = u64::from(from);
    let end = from + u64::from(count);
    (multiples_below(end, interval) - multiples_below(from, interval)) as u32
}

impl Unit for Pulses {
    ghost meaning = { λ _. pulses };

    ghost sound = { λ x.
        record {
          price_bound = λ c. Prim.grind (arith, nat_tests);
          lump_low = λ c d h. Prim.grind (arith, nat_tests);
          lump_high = λ c d. Prim.grind (arith, nat_tests);
          lump_none = λ c d h. Prim.grind (arith, nat_tests);
          misfit_price = λ c no_use. let one = no_use Periodic in let two = no_use OneTime in Prim.grind (arith, ints, nat_tests);
          misfit_ticks = λ c no_use j. let one = no_use Periodic in Prim.grind (arith, nat_tests);
          misfit_lump = λ c no_use d h. Prim.grind (arith, nat_tests);
        } };

    fn owns(&self, mark: Mark) -> bool {
        mark == PULSES
    }

    fn fits(&self, charge: Charge, usage: Usage) -> bool {
        match usage {
            Usage::Periodic => in_steps(charge, 1, 7200),
            Usage::OneTime | Usage::SetUp | Usage::Attempt | Usage::AddOn => in_steps(charge, 0, 0),
        }
    }

    // 0 is an amount here, and below a number of times: what a charge that fits no use comes to
    fn price(&self, charge: Charge) -> u64 {
        if in_steps(charge, 0, 7200) {
            u64::from(charge.size)
        } else {
            0
        }
    }

    fn ticks(&self, charge: Charge, from: u32, count: u32) -> u32 {
        if !in_steps(charge, 1, 7200) {
            return 0;
        }
        multiples_within(from, count, charge.step as u64)
    }

    fn lump(&self, _charge: Charge, duration: u16) -> u16 {
        u16::from((1..=36000).contains(&duration))
    }
}
