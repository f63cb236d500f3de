//! The fields of a head, by name (RFC 9110, section 5.1).
ghost use Rattle.std.specs.Prelude.{◌≡◌, ℕ, List, IfOk, IfErr, All, codes, length, map};
ghost use Rattle.std.specs.List.{list_any};
ghost use Rattle.std.specs.Str.{str_to_ascii_lowercase};
ghost use Rattle.http_header.specs.FieldName.{IsFieldName};
ghost use Rattle.http_header.specs.declared.name.HeaderNameError.TheVariants.{OutOfMemory};
ghost use Rattle.httparse.specs.Spans.{IsHeaderWithin, header_bytes, span_bytes};
ghost use Rattle.http1.specs.Fields.{elements, has_option};
ghost use Rattle.sp_base.specs.Fields.{IsFieldWithin, field_at};
ghost use Rattle.http_front.specs.LentHeads.{fields_at, is_closing_by_name, is_closing_field};
ghost use Rattle.http_front.specs.Heads as spec;

use http_header::{CONNECTION, HeaderName, HeaderNameError};
use http1::fields::KnownFields;
use httparse::spans::HeaderSpan;
use sp_base::{FieldSpan, Mem, NoMemory};
use std::alloc::Global;

/// The fields that stand at these places, by name.
pub fn named_fields(alloc: Global, bytes: &[u8], spans: &[HeaderSpan]) -> Mem<Vec<FieldSpan>>
    requires within { All (IsHeaderWithin (length bytes.now)) spans.now }
    requires names { All (λ field. IsFieldName field.0) (map (header_bytes bytes.now) spans.now) }
    ensures fields { IfOk result (λ fields. fields_at bytes.now fields.items ≡ map spec.lower_case_field (map (header_bytes bytes.now) spans.now)) }
    ensures within { IfOk result (λ fields. All (IsFieldWithin (length bytes.now)) fields.items) }
{
    let mut fields = Vec::with_capacity(alloc, spans.len())?;
    for span in spans {
        fields.push(named_field(alloc, bytes, span)?)?;
    }
    Ok(fields)
}

fn named_field(alloc: Global, bytes: &[u8], span: &HeaderSpan) -> Mem<FieldSpan>
    requires within { IsHeaderWithin (length bytes.now) span.now }
    requires name { IsFieldName (span_bytes bytes.now span.now.name) }
    ensures field { IfOk result (λ field. field_at bytes.now field ≡ spec.lower_case_field (header_bytes bytes.now span.now)) }
    ensures within { IfOk result (IsFieldWithin (length bytes.now)) }
{
    match name_of(alloc, span.name.of(bytes)) {
        Ok(name) => Ok(FieldSpan {
            name,
            start: span.value.start,
            end: span.value.end,
        }),
        Err(_) => Err(NoMemory),
    }
}

// The name of a field. Out of memory is its one fault.
fn name_of(alloc: Global, name: &[u8]) -> Result<HeaderName, HeaderNameError>
    requires { IsFieldName name.now }
    ensures ok { IfOk result (λ own. own ≡ str_to_ascii_lowercase name.now) }
    ensures err { IfErr result (λ e. e ≡ OutOfMemory) }
{
    HeaderName::from_bytes(alloc, name)
}

/// Whether two fields have the name.
pub fn is_repeated(fields: &[FieldSpan], name: &HeaderName) -> bool
    ensures { (bytes : List ℕ) → result ≡ spec.is_repeated name.now (fields_at bytes fields.now) }
{
    let mut count: usize = 0;
    for field in fields {
        if field.name == *name {
            count += 1;
        }
    }
    count > 1
}

/// Whether the connection closes after the answer (RFC 9112, section 9.3).
pub fn is_closing(minor: u8, bytes: &[u8], fields: &[FieldSpan]) -> bool
    requires { All (IsFieldWithin (length bytes.now)) fields.now }
    ensures { result ≡ is_closing_by_name minor (fields_at bytes.now fields.now) }
{
    minor == 0 || asks_to_close(bytes, fields)
}

fn asks_to_close(bytes: &[u8], fields: &[FieldSpan]) -> bool
    requires { All (IsFieldWithin (length bytes.now)) fields.now }
    ensures { result ≡ list_any is_closing_field (fields_at bytes.now fields.now) }
{
    let mut asks = false;
    for field in fields {
        asks = asks || is_closing_field(bytes, field);
    }
    asks
}

fn is_closing_field(bytes: &[u8], field: &FieldSpan) -> bool
    requires { IsFieldWithin (length bytes.now) field.now }
    ensures { result ≡ is_closing_field (field_at bytes.now field.now) }
{
    field.name == CONNECTION && lists_close(field.value(bytes))
}

// Whether the options of a Connection field have `close`.
fn lists_close(value: &[u8]) -> bool
    ensures { result ≡ has_option (codes "close") (elements value.now) }
{
    let mut known = KnownFields::new();
    known.add(b"connection", value);
    known.close
}
