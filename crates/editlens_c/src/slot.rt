//! What lies at the address of a session.
ghost use Rattle.std.specs.Prelude.{◌≡◌};
ghost use Rattle.editlens_c.specs.Slots.{IsPut, IsEnded, is_taken};

use crate::codes::{DONE, NOT_OPEN, SESSION_WORD};
use embed_session::EmbeddedSession;

/// A word, and a session behind it if the word is the word of magic. Any other word says that nothing is open, whatever
/// is behind it.
#[repr(C)]
#[derive(Drop)]
pub(crate) struct Slot {
    pub(crate) word: u64,
    pub(crate) embedded: Option<EmbeddedSession>,
}

impl Slot {
    // Whether a session is open, or why there is none is there.
    pub(crate) fn is_open(&self) -> bool
        ensures { result ≡ is_taken self.now }
    {
        self.word == SESSION_WORD && self.embedded.is_some()
    }

    // Puts what is held here. What was here is bytes without a meaning, so nothing of it is dropped.
    pub(crate) fn put(&mut self, embedded: EmbeddedSession)
        ensures { IsPut embedded self.new }
    {
        let slot = Slot {
            word: SESSION_WORD,
            embedded: Some(embedded),
        };
        std::mem::forget(std::mem::replace(self, slot));
    }

    // Ends what is open.
    pub(crate) fn end(&mut self) -> u32
        ensures { IsEnded self.old result self.new }
    {
        if !self.is_open() {
            return NOT_OPEN;
        }
        self.word = 0;
        drop(self.embedded.take());
        DONE
    }
}
