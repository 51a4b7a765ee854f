//! What lies at the address of a hub.
ghost use Rattle.std.specs.Prelude.{◌≡◌};
ghost use Rattle.editlens_c.specs.HubSlots.{IsHubPut, IsHubEnded, is_hub_taken};

use crate::codes::{DONE, HUB_WORD, NOT_OPEN};
use embed_hub::EmbeddedHub;

/// A word, and a hub behind it if the word is the word of magic. Any other word says that nothing is open, whatever
/// is behind it.
#[repr(C)]
#[derive(Drop)]
pub(crate) struct HubSlot {
    pub(crate) word: u64,
    pub(crate) embedded: Option<EmbeddedHub>,
}

impl HubSlot {
    // Whether a hub is open, or why there is none is there.
    pub(crate) fn is_open(&self) -> bool
        ensures { result ≡ is_hub_taken self.now }
    {
        self.word == HUB_WORD && self.embedded.is_some()
    }

    // Puts what is held here. What was here is bytes without a meaning, so nothing of it is dropped.
    pub(crate) fn put(&mut self, embedded: EmbeddedHub)
        ensures { IsHubPut embedded self.new }
    {
        let slot = HubSlot {
            word: HUB_WORD,
            embedded: Some(embedded),
        };
        std::mem::forget(std::mem::replace(self, slot));
    }

    // Ends what is open.
    pub(crate) fn end(&mut self) -> u32
        ensures { IsHubEnded self.old result self.new }
    {
        if !self.is_open() {
            return NOT_OPEN;
        }
        self.word = 0;
        self.embedded = None;
        DONE
    }
}
