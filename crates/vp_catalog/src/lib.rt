//! The catalogue: the sites with their ports, and the records with their starting values and the weights of their copies. A
//! contract sees it as the `Catalogue` of the definitions.
#![tactic(auto)]

mod catalog;
mod document;
mod entry;
mod fault;
mod majority;
mod others;
mod placed;
mod printing;
mod reading;
mod site;

pub use catalog::{Catalog, members_of};
pub use entry::Entry;
pub use fault::CatalogFault;
pub use majority::majorities_share_a_holder;
pub use others::{alone, others_of};
pub use placed::CatalogRecord;
pub use printing::print_weights;
pub use reading::parse_entry;
pub use site::parse_site;
