//! Media types as they are kept and sent (RFC 9110, section 8.3.1).
ghost use Rattle.std.specs.Prelude.{◌≡◌};
ghost use Rattle.std.specs.List.{list_all};
ghost use Rattle.sp_base.specs.Bytes.{is_printable_ascii};
ghost use Rattle.sp_base.specs.MediaTypes as spec;

use crate::limits::LONGEST_MEDIA_TYPE;

/// Whether bytes may be kept as a media type: at most `LONGEST_MEDIA_TYPE` printable bytes of ASCII, or none.
pub fn is_kind(kind: &[u8]) -> bool
    ensures { result ≡ spec.is_kind kind.now }
{
    kind.len() <= LONGEST_MEDIA_TYPE && is_printable(kind)
}

fn is_printable(text: &[u8]) -> bool
    ensures { result ≡ list_all is_printable_ascii text.now }
{
    text.iter().all(|b| *b >= b' ' && *b <= b'~')
}
