//! The fields of a head.

ghost use Rattle.std.specs.Prelude.{◌≡◌, ◌<◌, length, All};
ghost use Rattle.httparse.specs.Spans.{IsHeaderWithin};
ghost use Rattle.remote_http.specs.Fields.{HasField};
ghost use Rattle.remote_http.specs.Found.{IsFound};

use httparse::spans::HeaderSpan;

/// How often a field stands in a head.
#[derive(Clone, Copy, Debug, PartialEq, Eq)]
pub enum Found {
    Never,
    /// Once, at this index.
    Once(usize),
    Often,
}

/// How often a field of this name stands there, however it is capitalized.
pub fn find_field(buf: &[u8], fields: &[HeaderSpan], name: &[u8]) -> Found
    requires { All (IsHeaderWithin (length buf.now)) fields.now }
    ensures { IsFound buf.now fields.now name.now result }
{
    let mut found = Found::Never;
    'fields: for (k, field) in fields.iter().enumerate() {
        if field.name.of(buf).eq_ignore_ascii_case(name) {
            match found {
                Found::Never => found = Found::Once(k),
                _ => return Found::Often,
            }
        }
    }
    found
}
