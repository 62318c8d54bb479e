ghost use Rattle.inquiry.specs.Inquiries.{LooksAhead};
ghost use Rattle.std.specs.Prelude.{◌≡◌};

use crate::amount::amount_owed;
use indication::fault::Fault;
use record::call::Call;
use units::unit::Bounded;

// Keeps a copy of a call's record and restores the record when it is dropped.
struct Restore<'a> {
    call: &'a mut Call,
    copy: Call,
}

impl Drop for Restore<'_> {
    fn drop(self)
        ensures { self.exit.0.now ≡ self.entry.copy }
    {
        *self.call = self.copy;
        let Restore { call: _, copy: _ } = self;
    }
}

/// What a network would be owed `seconds` later, without further indications; none where the call does not know it. The
/// record is advanced itself, and restored on every way out.
pub fn look_ahead<U: Bounded>(
    call: &mut Call,
    unit: &U,
    network: u64,
    seconds: u32,
) -> Result<Option<u64>, Fault>
    ensures told { LooksAhead (U.Unit.meaning unit.now) call.old network seconds result }
    ensures restored { call.new ≡ call.old }
{
    let copy = *call;
    let guard = Restore { call, copy };
    guard.call.advance(unit, seconds)?;
    Ok(amount_owed(&*guard.call, network))
}
