//! The commands that make a store: `init`, and `import`.
//!
//! A store is a log on an empty disk. A command that makes one reads its script to its end, and makes all that it
//! stores and writes, before it writes to the disk. [`read_script`] reads the program of a script, [`make_store`] makes
//! the store, and [`refuse_program`] writes why a program part is refused. specs/NewEnds.antt has what holds of such a
//! command after each status.
//!
//! [`init`] makes a store with the program of a script alone, which represents the first triple of its lens:
//! specs/Init.antt. [`import`] stores an entry behind the program. The store then represents the left document of the
//! script: specs/Import.antt.
#![tactic(auto)]

mod document;
mod giving;
mod importing;
mod making;
mod refused;
mod scripts;
mod starting;

pub use giving::{give_line, refuse_program};
pub use importing::import;
pub use making::{LOG_EXISTS, StoreText, make_store};
pub use refused::ImportRefusal;
pub use scripts::{Unread, read_script, status_at};
pub use starting::{first_session, init};
