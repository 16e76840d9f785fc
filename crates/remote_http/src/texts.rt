//! The text of a request, and those that a response is held against.

ghost use Rattle.std.specs.Prelude.{◌≡◌, [], OnOk};
ghost use Rattle.remote_http.specs.Ranges.{content_range, content_length};
ghost use Rattle.remote_http.specs.Requests.{range_request};

use std::io::{self, Write};

/// What a range of so many bytes in all is called.
pub fn put_range(text: &mut Vec<u8>, first: u64, last: u64, total: u64) -> io::Result<()>
    ensures { OnOk result (text.new.items ≡ content_range first last total) }
{
    text.clear();
    write!(text, "bytes {first}-{last}/{total}")
}

/// What a length is called.
pub fn put_length(text: &mut Vec<u8>, len: usize) -> io::Result<()>
    ensures { OnOk result (text.new.items ≡ content_length len) }
{
    text.clear();
    write!(text, "{len}")
}

/// A request for a range.
pub fn put_request(
    text: &mut Vec<u8>,
    host: &str,
    target: &str,
    first: u64,
    last: u64,
) -> io::Result<()>
    ensures { OnOk result (text.new.items ≡ range_request host.now target.now first last) }
{
    text.clear();
    write!(
        text,
        "GET {target} HTTP/1.1\r\nHost: {host}\r\nRange: bytes={first}-{last}\r\nAccept-Encoding: identity\r\nUser-Agent: dalgovuun\r\n\r\n"
    )
}
