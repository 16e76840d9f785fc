//! URLs, and texts that are none.

use remote_url::{Source, source_of};
use std::alloc::{AllocError, Global};
use std::test::Fail;

/// What a text names, with its names decoded, or why it names nothing.
fn named(alloc: Global, text: &str) -> Result<String, AllocError> {
    match source_of(text) {
        Ok(Source::Path(path)) => format!(in alloc; "path {path}"),
        Ok(Source::Http(server, path)) => format!(in alloc;
            "http {} {} {path}",
            server.host, server.port
        ),
        Ok(Source::Nbd(server, name)) => match name.decoded(alloc) {
            Ok(name) => format!(in alloc; "nbd {} {} {name}", server.host, server.port),
            Err(fault) => format!(in alloc; "{fault}"),
        },
        Ok(Source::NbdUnix(socket, name)) => match (socket.decoded(alloc), name.decoded(alloc)) {
            (Ok(socket), Ok(name)) => format!(in alloc; "unix {socket} {name}"),
            _ => format!(in alloc; "no names"),
        },
        Err(fault) => format!(in alloc; "{fault}"),
    }
}

const ROWS: [(&str, &str); 26] = [
    ("/dev/vda1", "path /dev/vda1"),
    ("data", "path data"),
    ("https://mirror/image", "path https://mirror/image"),
    ("./http://mirror/image", "path ./http://mirror/image"),
    ("http://mirror/image", "http mirror 80 image"),
    (
        "http://mirror:8080/a/b.img?v=2%20",
        "http mirror 8080 a/b.img?v=2%20",
    ),
    ("http://[::1]:81/", "http ::1 81 "),
    ("http:///x", "no host"),
    ("http://mirror", "no path behind the host"),
    (
        "http://mirror:65536/x",
        "a port that isn't a number up to 65535",
    ),
    (
        "http://mirror:+80/x",
        "a port that isn't a number up to 65535",
    ),
    ("http://mirror:/x", "a port that isn't a number up to 65535"),
    (
        "http://user@mirror/x",
        "a host that is neither a name nor an address",
    ),
    (
        "http://[::1/x",
        "a host that is neither a name nor an address",
    ),
    (
        "http://mirror/x#y",
        "a path with a byte that isn't visible ASCII, or with #",
    ),
    (
        "http://mirror/x\r\nHost: other",
        "a path with a byte that isn't visible ASCII, or with #",
    ),
    ("nbd://host", "nbd host 10809 "),
    ("nbd://host/", "nbd host 10809 "),
    ("nbd://host:1/a%2Fb%zz", "nbd host 1 a/b%zz"),
    ("nbd://host/%ff", "a name that isn't UTF-8"),
    ("nbd://host/a?b", "an export's name with ? or #"),
    ("nbd+unix:///vol?socket=/run/a%20b", "unix /run/a b vol"),
    ("nbd+unix:///?socket=/run/nbd", "unix /run/nbd "),
    (
        "nbd+unix://host/?socket=/run/nbd",
        "a host where a socket is named",
    ),
    ("nbd+unix:///vol", "no ?socket=PATH"),
    ("nbd+unix:///vol?socket=", "no ?socket=PATH"),
];

#[test]
fn texts_name_paths_or_servers(rt: HostRuntime) -> Result<(), Fail> {
    for (text, wanted) in ROWS {
        let comes = named(rt.alloc(), text)?;
        assert_eq!(rt; comes.as_str(), wanted);
    }
    Ok(())
}
