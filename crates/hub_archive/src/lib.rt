//! Old nights of a hub are archived: all but the last ones become one entry, and their folders are moved aside.
//!
//! Proved:
//! - `archive_on` keeps an archive only of nights that all continue, as `run` asks it (`GoOn`), and of all but the last ones that are to be
//!   left. Its files are those of the definition (`archive_files`), made of just these nights (`IsArchiveOf`) and of the record of the last
//!   of them (`IsArchived`); by `archive_goes_on` of `archived_nights` later nights continue after it exactly if they continue after these
//!   nights;
//! - no name of a later night comes before that of the archive, and no name of an archived one after it, so a later run passes over just
//!   these (`IsSplit`);
//! - the archive is kept by one rename, once all of it is on the disk (`IsKept`). Whatever `archive_on` answers, a stop leaves the archives
//!   as they were, or with this one (`stopped`);
//! - with status 0 `archive_main` has printed just the line of the definition, or a text that was asked for, and nothing on standard error;
//!   it ends with 2 only if the arguments are wrong;
//! - `read_words` gives what the arguments ask for, as clap's definitions say.
//!
//! Only tested: that the folders of archived nights are moved and none is lost, that older archives are removed, and what `hub_folder`
//! only tests.
//!
//! Source: own.
//!
//! Tests: `.ci/archive`.
#![tactic(auto)]

mod archive;
mod archiving;
mod command;
mod folders;
mod help;
mod lines;
mod made;
mod program;
mod refusal;

pub use archive::archive_on;
pub use archiving::Archiving;
pub use command::{Asked, Options, begins_archive, read_words};
pub use made::Made;
pub use program::archive_main;
pub use refusal::{Cause, Refusal};
