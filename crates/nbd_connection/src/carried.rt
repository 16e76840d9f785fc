//! What contracts see of the traffic of a connection and of a listener. No code can read it, and it takes no bytes when the program
//! runs.
//!
//! No call but those below changes one. Whoever holds a `&mut` to one can put a new one in its place; so each stays a private field of
//! the type whose traffic it keeps.

ghost use Rattle.std.specs.Prelude.{◌≡◌, ℕ, ◌+◌, List, [], ◌∷◌, ◌++◌, take};
ghost use Rattle.std.specs.Borrow.{ftrue};
ghost use Rattle.nbd_relay.specs.Clients.{Log};
ghost use Rattle.nbd_connection.specs.Connections.{Visits, nothing};

use crate::connection::Connection;
use std::marker::Model;

/// What was received from a client, and what was sent to it.
#[derive(Drop)]
pub struct Carried {
    pub ghost log: { Log },
}

impl Model for Carried {
    ghost also_owns = { λ _. ftrue };
}

impl Carried {
    /// Nothing was carried.
    pub fn new() -> Carried
        ensures { result.log ≡ nothing }
    {
        carried_at()
    }

    /// So many bytes of these were received.
    pub fn receive(&mut self, bytes: &[u8], count: usize)
        ensures { self.new.log ≡ record { read = self.old.log.read ++ take count bytes.now; wrote = self.old.log.wrote } }
    {
        *self = self.received(bytes, count);
    }

    /// So many bytes of these were sent.
    pub fn send(&mut self, bytes: &[u8], count: usize)
        ensures { self.new.log ≡ record { read = self.old.log.read; wrote = self.old.log.wrote ++ take count bytes.now } }
    {
        *self = self.sent(bytes, count);
    }

    // What was carried, with the bytes received.
    fn received(&self, bytes: &[u8], count: usize) -> Carried
        ensures { result.log ≡ record { read = self.now.log.read ++ take count bytes.now; wrote = self.now.log.wrote } }
    {
        carried_after(self, bytes, count)
    }

    // What was carried, with the bytes sent.
    fn sent(&self, bytes: &[u8], count: usize) -> Carried
        ensures { result.log ≡ record { read = self.now.log.read; wrote = self.now.log.wrote ++ take count bytes.now } }
    {
        carried_after(self, bytes, count)
    }
}

// This log.
fn carried_after(_carried: &Carried, _bytes: &[u8], _count: usize) -> Carried
    ghost log: { Log }
    ensures { result.log ≡ log }
{
    carried_at()
}

// This log. Only the functions above reach it, so no other code makes one that has carried anything.
fn carried_at() -> Carried
    ghost log: { Log }
    ensures { result.log ≡ log }
{
    Carried {}
}

/// How many connections a listener has accepted, and what those had carried that were given back to it.
#[derive(Drop)]
pub struct Visited {
    pub ghost visits: { Visits },
}

impl Model for Visited {
    ghost also_owns = { λ _. ftrue };
}

impl Visited {
    /// None was accepted.
    pub fn new() -> Visited
        ensures { result.visits ≡ record { accepted = 0; closed = [] } }
    {
        visited_at()
    }

    /// One more was accepted.
    pub fn accept(&mut self)
        ensures { self.new.visits ≡ record { accepted = self.old.visits.accepted + 1; closed = self.old.visits.closed } }
    {
        *self = self.accepted();
    }

    /// This one is given back.
    pub fn close<C: Connection>(&mut self, connection: &C)
        ensures { self.new.visits ≡ record {
          accepted = self.old.visits.accepted;
          closed = self.old.visits.closed ++ C.log connection.now ∷ [];
        } }
    {
        *self = self.closed(connection);
    }

    // The same with one more that was accepted.
    fn accepted(&self) -> Visited
        ensures { result.visits ≡ record { accepted = self.now.visits.accepted + 1; closed = self.now.visits.closed } }
    {
        visited_after(self)
    }

    // The same with one more that was given back.
    fn closed<C: Connection>(&self, connection: &C) -> Visited
        ensures { result.visits ≡ record {
          accepted = self.now.visits.accepted;
          closed = self.now.visits.closed ++ C.log connection.now ∷ [];
        } }
    {
        visited_with(self, connection)
    }
}

// These visits.
fn visited_after(_visited: &Visited) -> Visited
    ghost visits: { Visits }
    ensures { result.visits ≡ visits }
{
    visited_at()
}

// These visits.
fn visited_with<C: Connection>(_visited: &Visited, _connection: &C) -> Visited
    ghost visits: { Visits }
    ensures { result.visits ≡ visits }
{
    visited_at()
}

// These visits. Only the functions above reach it.
fn visited_at() -> Visited
    ghost visits: { Visits }
    ensures { result.visits ≡ visits }
{
    Visited {}
}
