//! A server whose connections write what is written down.

use remote_file::Dial;
use remote_wire::Wire;
use std::cell::Cell;
use std::io::{self, ErrorKind};
use std::time::Duration;

/// What a server writes on each connection in turn, in pieces, and none after the last; and the time.
#[derive(Drop)]
pub struct Script<'a> {
    pub talks: &'a [&'a [&'a [u8]]],
    pub dialed: Cell<usize>,
    pub seconds: Cell<u64>,
}

/// Connections of a script.
#[derive(Drop)]
pub struct ScriptDial<'a> {
    pub script: &'a Script<'a>,
}

/// A read gives bytes of one piece alone. What is written to it is dropped.
#[derive(Drop)]
pub struct ScriptWire<'a> {
    pieces: &'a [&'a [u8]],
    /// Which piece comes next, and how much of it came.
    turn: usize,
    at: usize,
}

impl Wire for ScriptWire<'_> {
    fn receive(&mut self, out: &mut [u8]) -> io::Result<usize> {
        let Some(piece) = self.pieces.get(self.turn) else {
            return Ok(0);
        };
        let Some(rest) = piece.get(self.at..) else {
            return Ok(0);
        };
        let count = out.len().min(rest.len());
        out[..count].copy_from_slice(&rest[..count]);
        self.at = self.at.saturating_add(count);
        if self.at >= piece.len() {
            self.turn = self.turn.saturating_add(1);
            self.at = 0;
        }
        Ok(count)
    }

    fn send(&mut self, bytes: &[u8]) -> io::Result<usize> {
        Ok(bytes.len())
    }
}

impl<'a> Dial for ScriptDial<'a> {
    type Wire = ScriptWire<'a>;

    fn now(&self) -> io::Result<Duration> {
        Ok(Duration::from_secs(self.script.seconds.get()))
    }

    fn dial(&self, _until: Duration) -> io::Result<ScriptWire<'a>> {
        let turn = self.script.dialed.get();
        self.script.dialed.set(turn.saturating_add(1));
        match self.script.talks.get(turn) {
            Some(pieces) => Ok(ScriptWire {
                pieces,
                turn: 0,
                at: 0,
            }),
            None => Err(io::Error::from(ErrorKind::ConnectionRefused)),
        }
    }

    fn extend(&self, _wire: &mut ScriptWire<'a>, _until: Duration) {}
}
