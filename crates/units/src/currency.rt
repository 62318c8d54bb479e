ghost use Rattle.units.specs.Currencies.{currency, well_scaled};
ghost use Rattle.std.specs.Prelude.{◌≡◌};
ghost use Rattle.std.proofs.Common.{◌∙◌, arith};
ghost use Rattle.std.proofs.lemmas.Bool.{cond-true, cond-false};
ghost use Rattle.std.proofs.lemmas.Bool.Decides.{nat_tests};
ghost use Rattle.indication.specs.declared.entry.Usage.TheVariants.{Periodic};
ghost use Rattle.units.specs.Scales.{price_low};

use crate::unit::Unit;
use indication::entry::{Charge, Usage};
use indication::header::Mark;

/// Euros, in units of 0.0000001 EUR.
#[derive(Clone, Copy)]
pub struct Currency;

const EURO: Mark = Mark {
    kind: 0,
    letters: *b"EUR",
};

// Whether the factor is at most 999,999 and the scale -7 to 3.
fn well_scaled(charge: Charge) -> bool
    ensures { result ≡ well_scaled charge }
{
    charge.size <= 999999 && (-7..=3).contains(&charge.step)
}

impl Unit for Currency {
    ghost meaning = { λ _. currency };

    ghost sound = { λ x.
        record {
          price_bound = price_low;
          lump_low = λ c d h. Prim.grind (arith, nat_tests);
          lump_high = λ c d. Prim.grind (arith, nat_tests);
          lump_none = λ c d h. Prim.grind (arith, nat_tests);
          misfit_price = λ c no_use. cond-false _ _ _ (no_use Periodic);
          misfit_ticks = λ c no_use j. no_use Periodic;
          misfit_lump = λ c no_use d h. cond-true _ _ _ h ∙ cond-false _ _ _ (no_use Periodic);
        } };

    fn owns(&self, mark: Mark) -> bool {
        mark == EURO
    }

    fn fits(&self, charge: Charge, _usage: Usage) -> bool {
        well_scaled(charge)
    }

    // 0 is an amount here, and below a number of times: what a charge that fits no use comes to
    fn price(&self, charge: Charge) -> u64 {
        if well_scaled(charge) {
            u64::from(charge.size) * 10u64.pow((charge.step + 7) as u32)
        } else {
            0
        }
    }

    fn ticks(&self, charge: Charge, _from: u32, count: u32) -> u32 {
        if well_scaled(charge) { count } else { 0 }
    }

    fn lump(&self, charge: Charge, duration: u16) -> u16 {
        if duration > 36000 {
            return 0;
        }
        if well_scaled(charge) {
            duration
        } else {
            duration.min(1)
        }
    }
}
