//! The phases of a server, from its start to its end.

ghost use Rattle.std.specs.Prelude.{◌≡◌};
ghost use Rattle.lsp_core.specs.Phases.{call_phase, notice_phase};

use lsp_messages::{Call, Notice};

/// Where a server stands between its start and its end.
#[derive(Clone, Copy, PartialEq, Eq)]
pub enum Phase {
    /// Before `initialize`.
    Fresh,
    /// From `initialize` on.
    Running,
    /// From `shutdown` on.
    Down,
    /// From `exit` on.
    Gone {
        /// Whether `shutdown` came before.
        clean: bool,
    },
}

// The phase behind a request.
pub(crate) fn called(phase: Phase, call: &Call) -> Phase
    ensures { result ≡ call_phase phase call.now }
{
    match (phase, call) {
        (Phase::Fresh, Call::Initialize { .. }) => Phase::Running,
        (Phase::Running, Call::Shutdown) => Phase::Down,
        _ => phase,
    }
}

// The phase behind a notification.
pub(crate) fn noticed(phase: Phase, notice: &Notice) -> Phase
    ensures { result ≡ notice_phase phase notice.now }
{
    match notice {
        Notice::Exit => match phase {
            Phase::Fresh | Phase::Running => Phase::Gone { clean: false },
            Phase::Down => Phase::Gone { clean: true },
            Phase::Gone { .. } => phase,
        },
        _ => phase,
    }
}
