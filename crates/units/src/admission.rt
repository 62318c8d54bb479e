ghost use Rattle.std.specs.Prelude.{◌≡◌, ◌≤◌, MatchResult};
ghost use Rattle.indication.specs.Format.{entry_count};
ghost use Rattle.indication.specs.Rules.{Accepted, First, Foremost, Groundless};
ghost use Rattle.reader.specs.Readers.{lent};
ghost use Rattle.units.specs.Admission.{NotAdmittedAt, UnitGrounds, admits_at};

use crate::unit::Bounded;
use indication::fault::Fault;
use indication::header::Kind;
use reader::Reader;

/// Takes the indications that the reader takes, whose mark is the unit's and whose charges the unit admits.
pub fn read_for<'a, U: Bounded>(bytes: &'a [u8], taken: Kind, unit: &U) -> Result<Reader<'a>, Fault>
    ensures { MatchResult result (λ i. Groundless (UnitGrounds (U.Unit.meaning unit.now) taken bytes.now) × (lent i ≡ bytes.now)) (λ f. Foremost (UnitGrounds (U.Unit.meaning unit.now) taken bytes.now) f) }
{
    let reader = Reader::read(bytes, taken)?;
    admit(reader, unit)
}

// Passes a well-formed indication on where its mark is the unit's and the unit admits its charges. Reader and unit are two
// parameters, here and below: a struct of both would have two lifetimes, and say no more.
fn admit<'a, U: Bounded>(reader: Reader<'a>, unit: &U) -> Result<Reader<'a>, Fault>
    ensures { (taken : Kind) → Accepted taken (lent reader.entry) → MatchResult result (λ i. Groundless (UnitGrounds (U.Unit.meaning unit.now) taken (lent reader.entry)) × (lent i ≡ lent reader.entry)) (λ f. Foremost (UnitGrounds (U.Unit.meaning unit.now) taken (lent reader.entry)) f) }
{
    if !unit.owns(reader.header().mark) {
        return Err(Fault::ForeignMark);
    }
    if let Some(offset) = not_admitted(&reader, unit) {
        return Err(Fault::NotAdmitted(offset));
    }
    Ok(reader)
}

// The first charge that the unit does not admit for its use, by the offset of its first byte.
fn not_admitted<U: Bounded>(reader: &Reader, unit: &U) -> Option<usize>
    ensures { First (NotAdmittedAt (U.Unit.meaning unit.now) (lent reader.now)) result }
{
    (0..entry_count(reader))
        .find(|i| !admits_entry(reader, unit, *i))
        .map(|i| 24 + 6 * i)
}

fn entry_count(reader: &Reader) -> usize
    ensures count { result ≡ entry_count (lent reader.now) }
    ensures small { result ≤ 510 }
{
    usize::from(reader.current_count()) + usize::from(reader.next_count())
}

// Whether the unit admits the charge of entry i for its use; there is nothing to admit past the entries.
fn admits_entry<U: Bounded>(reader: &Reader, unit: &U, i: usize) -> bool
    ensures { result ≡ admits_at (U.Unit.meaning unit.now) (lent reader.now) i }
{
    reader
        .charge(i)
        .zip(reader.term(i))
        .is_none_or(|(charge, term)| unit.admits(charge, term.usage))
}
