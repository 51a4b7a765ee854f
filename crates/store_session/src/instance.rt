//! The calls and the laws that a store needs of its session.

use crate::answering::answer_item;
use crate::opening::open;
use crate::session::StoreSession;
use crate::showing::shown;
use crate::snapshot_making::snapshot_of;
use edit_journal::Line;
use lens_io::Payloads;
use std::alloc::{AllocError, Global};
use store_run::{Opened, ReopenFault, StoredAnswer, StoredSession};
use texts::Bytes;

impl StoredSession for StoreSession {
    ghost use Rattle.store_session.specs.StoredStates as states;
    ghost use Rattle.store_session.specs.AnswerSteps.{refused_stays};
    ghost use Rattle.store_session.specs.PayloadLaws as laws;
    ghost use Rattle.store_session.specs.SessionStates.{session_state};

    ghost State = { states.StoredState };

    ghost state = { λ s. session_state s.session };

    ghost answer = { states.answer };

    ghost is_step = { states.IsStep };

    ghost state_text = { states.state_text };

    ghost snapshot_text = { states.snapshot_text };

    ghost has_snapshot = { states.HasSnapshot };

    ghost count_of = { states.changes_counted };

    ghost stands_for = { states.stands_for };

    ghost version_stands = { laws.version_stands };

    ghost change_stands = { laws.change_stands };

    ghost version_counts = { laws.version_counts };

    ghost change_counts = { laws.change_counts };

    ghost snapshot_counts = { laws.snapshot_counts };

    ghost refused_stays = { refused_stays };

    ghost snapshot_stands = { laws.snapshot_stands };

    fn reopen(alloc: Global, payloads: &Payloads) -> Result<Opened<Self>, ReopenFault> {
        open(alloc, payloads)
    }

    fn snapshot(&self, alloc: Global) -> Result<Bytes, AllocError> {
        snapshot_of(alloc, &self.session)
    }

    fn answer(
        &mut self,
        alloc: Global,
        number: u64,
        line: &Line,
    ) -> Result<StoredAnswer, AllocError> {
        answer_item(alloc, &mut self.session, number, line, &mut self.scratch)
    }

    fn state_lines(&self, alloc: Global) -> Result<Bytes, AllocError> {
        shown(alloc, &self.session)
    }
}
