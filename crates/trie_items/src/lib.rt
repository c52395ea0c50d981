//! What is hashed: digests of values, the string of a node, its ID, and the root of a list of items. And the
//! trait of what gives the nodes of a map.
//!
//! It stands on `node_codec`, whose digest it names again, `bit_keys`, `mdb_base`, `sha2` and the
//! words of `base_model` and `trie_model`. Its errors are want of memory, which no call that gives a
//! digest or an ID of a node answers, an item out of order, and a source that failed. An ID is hashed
//! piece by piece, so no string is built for it.
#![tactic(auto)]

mod child;
mod digest;
mod hashed_string;
mod ids;
mod item_fault;
mod item_list;
mod items;
mod roots;
mod shown;
mod source;
mod source_fault;
mod steps;
#[cfg(test)]
mod tests;

pub use child::ChildId;
pub use digest::value_digest;
pub use hashed_string::node_string;
pub use ids::id_of;
pub use item_fault::ItemFault;
pub use item_list::ItemList;
pub use items::Item;
pub use node_codec::Digest;
pub use shown::{ShownNode, child_ids};
pub use source::NodeSource;
pub use source_fault::SourceFault;
pub use steps::Steps;
