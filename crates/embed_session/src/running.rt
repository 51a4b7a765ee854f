//! A session with the number of its last item and the text that answers the last call.
ghost use Rattle.std.specs.Option.{ForSome};
ghost use Rattle.std.specs.Prelude.{◌≡◌, None};
ghost use Rattle.embed_session.specs.Lenses.{one_proof};

use crate::accepted::Accepted;
use crate::shared::SharedLens;
use edit_session::Session;

/// A session, how many items it was given, the text that answers the last call, and the change of the last line, if it
/// was accepted.
#[derive(Drop)]
pub struct Running {
    pub session: Session<SharedLens>,
    pub number: u64,
    pub text: Vec<u8>,
    pub accepted: Option<Accepted>,
    ghost one_lens: { ForSome accepted (λ a. a.before.lens ≡ session.lens) } by { one_proof accepted session.lens },
}

impl Running {
    /// A session that no item was given yet, with this text. Does not allocate.
    pub fn new(session: Session<SharedLens>, text: Vec<u8>) -> Self
        ensures session { result.session ≡ session }
        ensures number { result.number ≡ 0 }
        ensures text { result.text ≡ text }
        ensures accepted { result.accepted ≡ None }
    {
        Running {
            session,
            number: 0,
            text,
            accepted: None,
        }
    }
}
