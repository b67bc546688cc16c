//! Terms over a signature: the term order, the normal form, positions and edits.
#![tactic(auto)]

mod bytes;
mod edit;
mod edit_check;
mod edit_fault;
mod edited;
mod laws;
mod limits;
mod memory;
mod name;
mod name_table;
mod normal;
mod order;
mod position;
mod replace;
mod sign;
mod signature;
mod size;
mod term;

pub use bytes::same_bytes;
pub use edit::{Edit, Edits};
pub use edit_check::check_edits;
pub use edit_fault::EditFault;
pub use laws::{
    one_edit_fails_by_size, one_edit_replaces, replaced_has_size, replaced_is_well_formed,
};
pub use limits::{
    MAX_ARITY, MAX_DEPTH, MAX_EDITS, MAX_KIND_SYMBOLS, MAX_KINDS, MAX_NAME_BYTES, MAX_OPS,
    MAX_SIGN_BYTES, MAX_TERM_NODES,
};
pub use memory::Memory;
pub use name::{Name, NameFault, Names};
pub use name_table::NameTable;
pub use normal::{
    has_head, is_normal, normal_form, normal_is_idempotent, normal_is_no_larger,
    normal_is_well_formed, normalise,
};
pub use order::{compare, compare_all};
pub use position::Position;
pub use replace::{replace_at, replace_many};
pub use sign::Sign;
pub use signature::{KindId, OpDecl, SigFault, Signature, in_kind, well_formed};
pub use size::{Excess, Size};
pub use term::{OpId, Term, Terms, at, copy_term, copy_terms, depth, node_count};
