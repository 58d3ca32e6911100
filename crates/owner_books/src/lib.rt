//! The owners' books and desks: their journals are made, they are opened on the owners' disks, and the disks are given back.
#![tactic(auto)]

mod books;
mod making;
mod numbers;
mod refusals;

pub use crate::books::{Opening, disk_stop, open_book, open_desks, open_on, put_back};
pub use crate::making::make_all;
pub use crate::numbers::{put_field, put_number, put_sensitivity, put_signed};
pub use crate::refusals::JournalRefusal;
