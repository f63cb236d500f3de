//! Header fields whose values stand in bytes that are held elsewhere.
ghost use Rattle.std.specs.Prelude.{◌≡◌, All, map, length, option_copied, nat_eq, slice_range};
ghost use Rattle.std.specs.List.{find};
ghost use Rattle.std.specs.Cmp.Lexicographic.{pointwise};
ghost use Rattle.sp_base.specs.Fields.{IsFieldWithin, field_at, field_of};

use http_header::HeaderName;

/// A header field of bytes: its name, and where its value stands in them, without blanks round it (RFC 9110, section 5).
#[derive(Drop)]
pub struct FieldSpan {
    pub name: HeaderName,
    pub start: usize,
    pub end: usize,
}

impl FieldSpan {
    /// The value of the field.
    pub fn value<'a>(&self, bytes: &'a [u8]) -> &'a [u8]
        requires { IsFieldWithin (length bytes.now) self.now }
        ensures { result.now ≡ slice_range bytes.now self.now.start self.now.end }
    {
        &bytes[self.start..self.end]
    }
}

/// The value of the first field of a name.
pub fn field_value<'a>(bytes: &'a [u8], fields: &[FieldSpan], name: &HeaderName) -> Option<&'a [u8]>
    requires { All (IsFieldWithin (length bytes.now)) fields.now }
    ensures { option_copied result ≡ field_of (map (field_at bytes.now) fields.now) name.now }
{
    match first_named(fields, name) {
        Some(field) => Some(field.value(bytes)),
        None => None,
    }
}

fn first_named<'a>(fields: &'a [FieldSpan], name: &HeaderName) -> Option<&'a FieldSpan>
    ensures { option_copied result ≡ find (λ field. pointwise nat_eq field.name name.now) fields.now }
{
    fields.iter().find(|field| field.name == *name)
}
