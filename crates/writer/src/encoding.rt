ghost use Rattle.arrayvec.specs.ArrayVec.{array_vec_len};
ghost use Rattle.indication.specs.Fits.{Fits, HeaderFits};
ghost use Rattle.indication.specs.Format.{content_of, encoded, header_bytes};
ghost use Rattle.std.specs.Prelude.{◌≡◌, ◌+◌, ◌≤◌, ◌++◌, length};

use crate::fields::{charge_bytes, first_eight, term_bytes};
use arrayvec::ArrayVec;
use indication::header::Header;
use indication::value::Indication;

// The bytes of an indication as far as they are put down; 132 are the most that one has.
pub(crate) type Encoding = ArrayVec<u8, 132>;

// The bytes of an indication.
pub(crate) fn encoding_of(indication: &Indication) -> Encoding
    ensures bytes { result.items ≡ encoded (content_of indication.now) }
    ensures fits { Fits (content_of indication.now) }
{
    let current = indication.current.as_slice();
    let next = indication.next.as_slice();
    let mut encoding = header_encoding(indication.header, current.len() as u8, next.len() as u8);
    // two loops: a bound `Fn` that names the length of a part is not covered by the borrow checker
    for entry in current.iter().chain(next) {
        put(&mut encoding, &charge_bytes(*entry));
    }
    for entry in current.iter().chain(next) {
        put(&mut encoding, &term_bytes(*entry));
    }
    encoding
}

// The bytes of the header, with the counts of the two tariffs' entries.
fn header_encoding(header: Header, current: u8, next: u8) -> Encoding
    ensures bytes { result.items ≡ header_bytes current next header }
    ensures len { array_vec_len result ≡ 24 }
    ensures fits { HeaderFits header }
{
    let mut encoding = Encoding::new();
    put(&mut encoding, &first_eight(header, current, next));
    put(&mut encoding, &header.mark.letters);
    put(&mut encoding, &[0]);
    put(&mut encoding, &header.network.to_be_bytes());
    put(&mut encoding, &header.reference.to_be_bytes());
    encoding
}

// Puts bytes down behind those that are there.
fn put(encoding: &mut Encoding, part: &[u8])
    requires { array_vec_len encoding.old + length part.now ≤ 132 }
    ensures { encoding.new.items ≡ encoding.old.items ++ part.now }
{
    encoding.try_extend_from_slice(part).unwrap();
}
