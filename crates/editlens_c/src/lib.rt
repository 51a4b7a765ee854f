//! The exports: what a program in another language calls. `editlens.h` declares them for C.
//!
//! A caller has memory for a session, of [`editlens_session_size`](sessions) bytes that are 0 at first, and passes its
//! address to each call. The contract of a call says what lies there before it and after it (specs/Keeping.antt), and
//! what its answer says (specs/Answers.antt). A word of magic says whether a session is open there. A call that finds
//! none, or NULL, does nothing and answers `NOT_OPEN`. Nothing checks that a caller keeps to the rest: the section
//! "Safety" of each call and docs/EMBEDDING.md say what it owes.
#![tactic(auto)]

mod answer;
mod codes;
mod hub_answer;
mod hub_codes;
mod hub_slot;
mod hubs;
mod reasons;
mod sessions;
mod slot;
mod version;

pub use answer::Answer;
