//! Two sites that take turns over a link that loses, repeats and reorders.
//!
//! The left site keeps the left document and the complement, the right site the right document. Each site collects
//! edits in a draft and seals it to a numbered batch; the left makes the odd batches and the right the even ones. A
//! link is both sites with every packet that was ever sent: a loss is a packet that is never delivered. What an
//! event makes of a link is `happens` in specs/Links, and what holds after every list of events is in specs/Laws.
#![tactic(auto)]

mod batch;
mod draft;
mod event;
pub mod fault;
pub mod laws;
mod left;
mod link;
mod right;
mod turns;

pub use crate::batch::Batch;
pub use crate::event::{Event, Told};
pub use crate::fault::{LinkFault, ReceiveFault, Received, SiteFault};
pub use crate::left::LeftSite;
pub use crate::link::Link;
pub use crate::right::RightSite;
