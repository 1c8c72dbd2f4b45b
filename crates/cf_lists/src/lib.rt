//! Lists that structures keep. Definitions and laws on lists that the standard library lacks: elements
//! put in their place, pairs of elements, shortest prefixes, filters, lists whose elements have keys,
//! lists of records, one for each header, and elements in table entries, seen in the order of their
//! keys; and the sorted list of the resources of a table's elements.
#![tactic(auto)]

mod keys;
mod nodes;

pub use keys::start_of;
pub use nodes::{copy_list, cut, fill, insert, insert_copy, replace, roll, turn};
