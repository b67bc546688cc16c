//! What a walk goes by.
use crate::code::Code;
use mp_table::Table;
use mp_term::Signature;

// The signature, the table of instructions, and the table with the subject. What a walk may count on is `IsSetting` of
// `specs/Setting.antt`.
#[derive(Clone, Copy)]
pub(crate) struct Setting<'a> {
    pub(crate) sig: &'a Signature,
    pub(crate) code: &'a Code,
    pub(crate) table: &'a Table,
}
