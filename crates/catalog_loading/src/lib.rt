//! Catalogs and the files that they name are read, in order, up to the first that is refused.
#![tactic(auto)]

mod fitting;
mod headers;
mod loading;
mod opening;
mod owner;
mod reading;
mod registers;
mod stops;

pub use crate::fitting::find_fitting;
pub use crate::headers::headers_of;
pub use crate::loading::{load_for, open_catalog};
pub use crate::opening::{Keyed, Opened, OpenedTables, find_owner, open_house, open_tables};
pub use crate::owner::{OpenedOwner, open_owner};
pub use crate::reading::read_file;
pub use crate::registers::{Registered, Undivided};
pub use crate::stops::Stop;
