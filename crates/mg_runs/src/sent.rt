//! How many messages a run sent.

ghost use Rattle.std.specs.Prelude.{◌≡◌};
ghost use Rattle.mg_runs.specs.Runs.{messages_in};
ghost use Rattle.mg_runs.specs.inner.Sent.{sends};

use vm_events::{Events, Kind};

/// How many of these events send a message.
pub(crate) fn messages_in(events: &Events) -> usize
    ensures { result ≡ messages_in events.now.items }
{
    let mut count = 0;
    for place in 0..events.len() {
        if is_send(events.kind_at(place)) {
            count += 1;
        }
    }
    count
}

// Whether events of a kind send a message.
fn is_send(kind: Kind) -> bool
    ensures { result ≡ sends kind }
{
    match kind {
        Kind::Send => true,
        Kind::Print | Kind::Made | Kind::Enter | Kind::Leave | Kind::Look => false,
        Kind::Take => false,
    }
}
