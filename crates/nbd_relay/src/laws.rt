//! Laws of the definitions, for the loop above.

ghost use Rattle.std.specs.Prelude.{◌≡◌, ◌≢◌, ◌++◌, List, [], ◌∷◌, ℕ};
ghost use Rattle.nbd_session.specs.declared.offer.Offer.{Offer};
ghost use Rattle.nbd_hub.specs.History.{Step};
ghost use Rattle.nbd_hub.specs.Sessions.{HubState};
ghost use Rattle.nbd_hub.specs.After.{Given, IsAfter};
ghost use Rattle.nbd_relay.specs.Client.{ClientState, IsServed, IsOfAnother, FedOnce, IsSaid};
ghost use Rattle.nbd_relay.specs.Clients.{Log, AllServed, RunsOn};

use crate::stream::Stream;
use nbd_session::Export;

/// A step of another session changes nothing of a client.
pub fn others_stay()
    ensures { (offer : Offer) (history : List Step) (step : Step) (client : ClientState) (read wrote : List ℕ)
        → IsOfAnother client.id step → IsServed offer history client read wrote → IsServed offer (history ++ step ∷ []) client read wrote }
{}

/// Nor does another client's turn.
pub fn turns_of_others_stay()
    ensures { (offer : Offer) (history fed : List Step) (id : ℕ) (client : ClientState) (read wrote : List ℕ)
        → id ≢ client.id → FedOnce id fed → IsServed offer history client read wrote → IsServed offer (history ++ fed) client read wrote }
{}

/// What was written to a served client is a beginning of the talk of what was read from it, by verdicts of its own.
pub fn what_was_said<E: Export>()
    ensures { (export : E) (hub : HubState) (history : List Step) (client : ClientState) (read wrote : List ℕ)
        → IsAfter (E.facts export) hub history → IsServed hub.offer history client read wrote
        → IsSaid (Given (E.facts export)) hub.offer client read wrote }
{}

/// Runs of turns add up: what is served after some turns, and then after others, is served after both.
pub fn runs_go_on<S: Stream, E: Export>()
    ensures { (a b : E) (hub hub' : HubState) (history : List Step) (first mid last : List (ClientState × S)) (logs : List Log)
        → RunsOn S.remaining S.received S.contents (E.facts a) hub history first mid logs
        → ((g : List Step) (later : List Log) → IsAfter (E.facts a) hub g → AllServed hub.offer g mid later
        → RunsOn S.remaining S.received S.contents (E.facts b) hub' g mid last later)
        → RunsOn S.remaining S.received S.contents (E.facts b) hub' history first last logs }
{}
