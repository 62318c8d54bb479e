ghost use Rattle.std.proofs.Common.{rules};

use crate::unit::{Bounded, Unit};
use indication::entry::{Charge, Usage};
use indication::header::Mark;

/// A unit under a price limit: it means what the unit below it means, and admits no charge that costs more than 10^9.
#[derive(Clone, Copy)]
pub struct PriceLimit<U> {
    pub unit: U,
}

impl<U: Unit> Unit for PriceLimit<U> {
    ghost meaning = { λ limit. U.Unit.meaning limit.unit };

    ghost sound = { Prim.search rules };

    fn owns(&self, mark: Mark) -> bool {
        self.unit.owns(mark)
    }

    fn fits(&self, charge: Charge, usage: Usage) -> bool {
        self.unit.fits(charge, usage)
    }

    fn price(&self, charge: Charge) -> u64 {
        self.unit.price(charge)
    }

    fn ticks(&self, charge: Charge, from: u32, count: u32) -> u32 {
        self.unit.ticks(charge, from, count)
    }

    fn lump(&self, charge: Charge, duration: u16) -> u16 {
        self.unit.lump(charge, duration)
    }
}

impl<U: Unit> Bounded for PriceLimit<U> {
    fn admits(&self, charge: Charge, usage: Usage) -> bool {
        self.unit.fits(charge, usage) && self.unit.price(charge) <= 1_000_000_000
    }
}
