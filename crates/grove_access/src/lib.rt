//! Lists of accesses, records, and what an access does to them.
#![tactic(auto)]

pub use access::{Access, Op};
pub use alone::run_alone;
pub use carry::Carry;
pub use entry::Entry;
pub use fault::ListFault;
pub use known::Known;
pub use list::{AccessList, LONGEST_ACCESS, MOST_ACCESSES};
pub use records::Records;
pub use reply::Reply;

mod access;
mod alone;
mod buckets;
mod carry;
mod carrying;
mod entry;
mod fault;
mod known;
mod list;
mod records;
mod reply;
