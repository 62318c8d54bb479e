ghost use Rattle.indication.specs.Format.{content_of};
ghost use Rattle.writer.specs.Writing.{Unwritable, Written};
ghost use Rattle.std.specs.Prelude.{◌≡◌, length, MatchResult};

use crate::encoding::encoding_of;
use indication::fault::Fault;
use indication::value::Indication;
use reader::Reader;

/// Writes the indication's bytes to the front of the buffer, and answers how many they are.
// into a slice that is lent: memory is fixed, and the caller's
pub fn write(indication: &Indication, out: &mut [u8]) -> Result<usize, Fault>
    ensures { MatchResult result (λ n. Written (content_of indication.now) out.old out.new n) (λ f. Unwritable (content_of indication.now) (length out.old) f × (out.new ≡ out.old)) }
{
    let encoding = encoding_of(indication);
    let bytes = encoding.as_slice();
    Reader::read(bytes, indication.header.kind)?;
    if out.len() < bytes.len() {
        return Err(Fault::NoRoom(bytes.len()));
    }
    out[..bytes.len()].copy_from_slice(bytes);
    Ok(bytes.len())
}
