//! Pages of either kind: a low key, and a chain of runs over a base; the search for the child that covers a key, and
//! iteration over the children whose ranges meet two bounds.
//!
//! `specs/` defines pages, their children, and the requirements on a page. Laws: the tests by which a page is checked
//! find exactly the pages that break a requirement; the children's ranges tile the range of their page; a range meets
//! bounds if they share a key. Other crates import items from this root, and laws from the public module `laws`.
#![tactic(auto)]

mod child_list;
mod in_memory;
mod index_state;
pub mod laws;
mod page;
mod within;

pub use crate::child_list::ChildList;
pub use crate::in_memory::PageInMemory;
pub use crate::page::Page;
pub use crate::within::Children;
