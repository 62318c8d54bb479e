ghost use Rattle.indication.specs.Codes.{kind_code, usage_code};
ghost use Rattle.indication.specs.Format.{byte as byte_at, part, term_offset};
ghost use Rattle.indication.specs.Numbers.{value};
ghost use Rattle.std.specs.Prelude.{◌≡◌, ◌+◌, ◌<◌, ◌⊎◌, MatchOption};

use crate::bytes::{byte, part, term_offset};
use indication::entry::Usage;
use indication::header::Kind;

// The kind that the bytes name, if their code is one of a kind.
#[tactic(auto, using(crate::proofs::Decoded::decodings))]
pub(crate) fn kind(bytes: &[u8]) -> Option<Kind>
    ensures { let code = byte_at bytes.now 2 in MatchOption result ((code ≡ 0) ⊎ (2 < code)) (λ kind. kind_code kind ≡ code) }
{
    Kind::try_from(byte(bytes, 2)).ok()
}

// The use that entry i names, if its code is one of a use.
#[tactic(auto, using(crate::proofs::Decoded::decodings))]
pub(crate) fn usage(bytes: &[u8], i: u16) -> Option<Usage>
    ensures { let code = byte_at bytes.now (term_offset bytes.now i) in MatchOption result (4 < code) (λ usage. usage_code usage ≡ code) }
{
    Usage::try_from(byte(bytes, term_offset(bytes, i))).ok()
}

// The duration that entry i names.
pub(crate) fn duration(bytes: &[u8], i: u16) -> u16
    ensures { result ≡ value (part bytes.now (term_offset bytes.now i + 1) 2) }
{
    u16::from_be_bytes(part(bytes, term_offset(bytes, i) + 1))
}
