//! What a response's head has to state before its body is taken.

ghost use Rattle.std.specs.Prelude.{◌≡◌, ◌≢◌, length, All, IfOk, IfErr, OnOk, OnErr, codes};
ghost use Rattle.httparse.specs.Spans.{IsHeaderWithin};
ghost use Rattle.remote_http.specs.Fields.{HasValue, HasNone, HasPlainBody};
ghost use Rattle.remote_http.specs.Ranges.{content_range, content_length};
ghost use Rattle.remote_http.specs.Statuses.{IsStatusFault};

use crate::fault::RangeFault;
use crate::fields::{Found, find_field};
use crate::texts::{put_length, put_range};
use http::StatusCode;
use httparse::spans::HeaderSpan;
use std::alloc::Global;

/// That the status is the one of a range.
///
/// # Errors
///
/// `NoRanges` for 200, `Redirect` for 3xx, `Status` for any other.
pub fn check_status(
    said: &[u8],
    fields: &[HeaderSpan],
    alloc: Global,
    code: u16,
) -> Result<(), RangeFault>
    requires { All (IsHeaderWithin (length said.now)) fields.now }
    ensures partial { OnOk result (code ≡ 206) }
    ensures refused { IfErr result (IsStatusFault code) }
{
    match code {
        206 => Ok(()),
        200 => Err(RangeFault::NoRanges),
        _ => Err(status_fault(said, fields, alloc, code)),
    }
}

/// What a status that gives nothing is told as: 206 and 200 are none.
fn status_fault(said: &[u8], fields: &[HeaderSpan], alloc: Global, code: u16) -> RangeFault
    requires within { All (IsHeaderWithin (length said.now)) fields.now }
    requires other { code ≢ 200 }
    ensures { IsStatusFault code result }
{
    let Ok(status) = StatusCode::from_u16(code) else {
        return RangeFault::NotHttp;
    };
    if !status.is_redirection() {
        return RangeFault::Status(status);
    }
    match String::from_str(alloc, location(said, fields)) {
        Ok(text) => RangeFault::Redirect(status, text),
        Err(e) => RangeFault::NoMemory(e),
    }
}

/// The Location of a redirection where it is visible ASCII, else nothing.
fn location<'a>(said: &'a [u8], fields: &[HeaderSpan]) -> &'a str
    requires { All (IsHeaderWithin (length said.now)) fields.now }
{
    let Found::Once(k) = find_field(said, fields, b"location") else {
        return "";
    };
    let value = fields[k].value.of(said);
    if !value.iter().all(u8::is_ascii_graphic) {
        return "";
    }
    std::str::from_utf8(value).unwrap_or("")
}

/// That the one range of the response is the one that was asked for; how many bytes there are in all.
///
/// # Errors
///
/// `NoLength` where it doesn't say how many bytes there are, else `OtherRange`.
pub fn check_range(
    said: &[u8],
    fields: &[HeaderSpan],
    text: &mut Vec<u8>,
    first: u64,
    last: u64,
) -> Result<u64, RangeFault>
    requires { All (IsHeaderWithin (length said.now)) fields.now }
    ensures { IfOk result (λ total. HasValue said.now fields.now (codes "content-range") (content_range first last total)) }
{
    let Found::Once(k) = find_field(said, fields, b"content-range") else {
        return Err(RangeFault::OtherRange);
    };
    let value = fields[k].value.of(said);
    if value.ends_with(b"/*") {
        return Err(RangeFault::NoLength);
    }
    let Some(total) = number_behind_slash(value) else {
        return Err(RangeFault::OtherRange);
    };
    put_range(text, first, last, total)?;
    if value != text.as_slice() {
        return Err(RangeFault::OtherRange);
    }
    Ok(total)
}

/// The number behind the last slash.
fn number_behind_slash(value: &[u8]) -> Option<u64> {
    let (_, digits) = std::str::from_utf8(value).ok()?.rsplit_once('/')?;
    digits.parse::<u64>().ok()
}

/// That the body has so many bytes.
///
/// # Errors
///
/// `OtherBody` where it has others, or the response doesn't say it, or twice.
pub fn check_length(
    said: &[u8],
    fields: &[HeaderSpan],
    text: &mut Vec<u8>,
    len: usize,
) -> Result<(), RangeFault>
    requires { All (IsHeaderWithin (length said.now)) fields.now }
    ensures { OnOk result (HasValue said.now fields.now (codes "content-length") (content_length len)) }
{
    let Found::Once(k) = find_field(said, fields, b"content-length") else {
        return Err(RangeFault::OtherBody);
    };
    put_length(text, len)?;
    if fields[k].value.of(said) != text.as_slice() {
        return Err(RangeFault::OtherBody);
    }
    Ok(())
}

/// That the body isn't in chunks.
///
/// # Errors
///
/// `OtherBody` where it is, or is laid out in any other way.
pub fn check_whole(said: &[u8], fields: &[HeaderSpan]) -> Result<(), RangeFault>
    requires { All (IsHeaderWithin (length said.now)) fields.now }
    ensures whole { OnOk result (HasNone said.now fields.now (codes "transfer-encoding")) }
    ensures refused { OnErr result (¬ (HasNone said.now fields.now (codes "transfer-encoding"))) }
{
    match find_field(said, fields, b"transfer-encoding") {
        Found::Never => Ok(()),
        _ => Err(RangeFault::OtherBody),
    }
}

/// That the body isn't coded.
///
/// # Errors
///
/// `OtherBody` where it is.
pub fn check_plain(said: &[u8], fields: &[HeaderSpan]) -> Result<(), RangeFault>
    requires { All (IsHeaderWithin (length said.now)) fields.now }
    ensures plain { OnOk result (HasPlainBody said.now fields.now) }
    ensures refused { OnErr result (¬ (HasPlainBody said.now fields.now)) }
{
    match find_field(said, fields, b"content-encoding") {
        Found::Never => Ok(()),
        Found::Once(k) => {
            if fields[k].value.of(said) != b"identity".as_slice() {
                return Err(RangeFault::OtherBody);
            }
            Ok(())
        }
        Found::Often => Err(RangeFault::OtherBody),
    }
}

/// Whether the server ends the connection behind the response.
pub fn closes(said: &[u8], fields: &[HeaderSpan]) -> bool
    requires { All (IsHeaderWithin (length said.now)) fields.now }
{
    match find_field(said, fields, b"connection") {
        Found::Never => false,
        Found::Once(k) => !fields[k].value.of(said).eq_ignore_ascii_case(b"keep-alive"),
        Found::Often => true,
    }
}
