//! Rule lines of program texts.

use mp_pattern::BoxedCond;
use mp_term::{Name, Names};

/// What a rule line says of a test. Contracts see it as `rule_test` of `specs/RuleView.antt`.
#[derive(Drop)]
pub enum RuleTest {
    /// Nothing.
    Untested,
    /// The number of a test line, from 0. Format 2 alone has it.
    Tested(u32),
    /// The condition itself, on the variables of the line. Format 1 alone has it.
    Spelled(BoxedCond),
}

/// A rule line. Contracts see it as the record `rule_line_view` of `specs/RuleView.antt`.
#[derive(Drop)]
pub struct RuleLine {
    /// The rule's name.
    pub name: Name,
    /// The names of its variables, in order.
    pub vars: Names,
    /// What it says of a test.
    pub test: RuleTest,
}
