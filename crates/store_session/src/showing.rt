//! The state lines of a session.

ghost use Rattle.std.specs.Prelude.{◌≡◌, IfOk};
ghost use Rattle.store_run.specs.OkLines.{AreOtherLines};
ghost use Rattle.store_session.specs.StoredStates.{state_text};
ghost use Rattle.store_session.specs.SessionStates.{session_state};

use edit_session::Session;
use lens_flat::Flat;
use run_answers::state_lines;
use std::alloc::{AllocError, Global};
use texts::Bytes;

// The state lines of a session.
#[tactic(auto, using(lens_flat::proofs::FormLenses::is_lens_of))]
pub(crate) fn shown(alloc: Global, session: &Session<Flat>) -> Result<Bytes, AllocError>
    ensures text { IfOk result (λ text. text ≡ state_text (session_state session.now)) }
    ensures lines { IfOk result AreOtherLines }
{
    let typed = session.lens().typed();
    let text = state_lines(alloc, typed, session)?;
    Ok(Bytes::from_vec(text))
}
