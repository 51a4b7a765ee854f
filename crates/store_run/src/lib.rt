//! The commands over a store that is there: `apply`, `pack`, `show`, `verify` and `undo`.
//!
//! A store is a log on a disk, and its payloads stand for a session. [`apply`] answers the lines of a journal. It
//! stores the payload of each change that it accepts, and only then writes its answer. [`pack`] stores the snapshot
//! of the session. [`undo`] stores the snapshot of what was before the last changes. [`show`] and [`verify`] only read.
//! Each begins with [`open_store`] or [`read_store`], or ends with [`refuse_store`]. A command that changes a store in
//! its own way makes one payload and some lines, and ends with [`store_last`].
//!
//! However `apply` ends, each line that had ended when the source was called last is answered, and its answer was
//! written: `StoreAnswersInTime` in specs/InTime.antt. So a line is answered before more is asked for.
//!
//! A crash at any moment leaves a disk that holds the payload of each change whose `ok` line was written:
//! `IsAcknowledged` in specs/Crash.antt, and `IsSafeCall` in specs/ApplyCall.antt for the complete call.
//! `ContinuesCall` beside it is what a call that came to its end has done. The clauses are proved over any source, sink
//! and disk, and over any session with the calls and the laws of [`StoredSession`], for `undo` of [`UndoneSession`].
#![tactic(auto)]

mod apply_call;
mod continuing;
mod count_lines;
mod journal;
mod opening;
mod pack_call;
mod refusals;
mod session;
mod stop;
mod store;
mod storing;
mod undo_call;
mod undo_session;
mod view_call;

pub use apply_call::apply;
pub use continuing::{answer_journal, continue_store};
pub use journal::{StoreProgress, store_line, store_lines, store_pieces};
pub use opening::{OpenFault, OpenedStore, ReadStore, open_store, read_store, refuse_store};
pub use pack_call::{pack, pack_store};
pub use refusals::{StoreRefusal, give_stop, refuse};
pub use session::{Opened, ReopenFault, StoredAnswer, StoredSession};
pub use stop::Stop;
pub use store::{store_and_answer, store_version};
pub use storing::{MoreText, store_last};
pub use undo_call::undo;
pub use undo_session::{Making, MakingFault, UndoneSession};
pub use view_call::{show, verify};
