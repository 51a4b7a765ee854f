//! The session of a store.

ghost use Rattle.std.specs.Prelude.{◌≡◌};

use edit_session::Session;
use json::Scratch;
use lens_flat::Flat;

/// A session of the program that a store keeps: its lens, and the triple for which the payloads stand.
#[derive(Drop)]
pub struct StoreSession {
    pub(crate) session: Session<Flat>,
    // Room for reading lines, which says nothing of the state.
    pub(crate) scratch: Scratch,
}

impl StoreSession {
    /// The session, with its lens and its triple.
    pub fn session(&self) -> &Session<Flat>
        ensures { result.now ≡ self.now.session }
    {
        &self.session
    }
}
