//! What an indication comes to where it is read for a unit: a refusal, or what it says.

#![tactic(auto)]

ghost use Rattle.std.specs.Prelude.{◌≡◌, ℕ, List};
ghost use Rattle.readings.specs.Readings.{Reads, answered, reading};
ghost use Rattle.units.specs.Meanings.{Meaning};

use indication::fault::Fault;
use indication::header::Kind;
use indication::value::Indication;
use units::admission::read_for;
use units::unit::Bounded;

/// Takes the indications that the reader and the unit take, each as a value of its own.
pub fn indication_for<U: Bounded>(bytes: &[u8], taken: Kind, unit: &U) -> Result<Indication, Fault>
    ensures computed { answered result ≡ reading (U.Unit.meaning unit.now) taken bytes.now }
    ensures right { (m : Meaning) (taken : Kind) (b : List ℕ) → Reads m taken b (reading m taken b) }
{
    let reader = read_for(bytes, taken, unit)?;
    Ok(reader.indication())
}
