//! Plans: a pattern with its nodes and its variables, each by its number.
ghost use Rattle.std.specs.Prelude.{◌≡◌, ◌+◌, ◌<◌, ◌≤◌, IfErr, IfOk, IfSome, Some, length, slice_get, position};
ghost use Rattle.std.specs.Prelude.{option_map};
ghost use Rattle.std.specs.Option.{option_and_then};
ghost use Rattle.mp_pattern.specs.Plan.{label_variable};
ghost use Rattle.mp_pattern.specs.Size.{pattern_nodes};
ghost use Rattle.mp_pattern.specs.Subpatterns.{subpatterns};
ghost use Rattle.mp_pattern.specs.Value.{same_name};
ghost use Rattle.mp_pattern.specs.View.{pattern_tree, wildcard};
ghost use Rattle.mp_pattern.specs.PlanView.{form, kept_of, shown_label, stored, variable_label};

use crate::entry::Form;
use crate::limits::{MAX_PATTERN_NODES, MAX_VARIABLES};
use crate::pattern::{Pattern, Shape};
use mp_term::{Name, OpId};
use std::marker::Model;

/// What stands at a node of a plan. Contracts see it as the label `shown_label` of `specs/PlanView.antt`.
#[derive(Drop)]
pub enum PlanNode<'a> {
    /// A symbol.
    Sym(&'a Name),
    /// An operation.
    App(OpId),
    /// A wildcard, with the number of its variable where it has one.
    Wild(&'a Shape, Option<u32>),
}

// What is kept of a node: the number of the node after its subpattern, that of its parent, and that of its variable.
#[derive(Drop)]
pub(crate) struct Node {
    pub(crate) end: u32,
    pub(crate) parent: Option<u32>,
    pub(crate) variable: Option<u32>,
}

// A variable with its form.
#[derive(Drop)]
pub(crate) struct Variable {
    pub(crate) name: Name,
    pub(crate) form: Form,
}

/// A pattern with its nodes, which have the numbers of the preorder from 0, and its variables, which are numbered from
/// 0 by first occurrence. Contracts see it as the record `Plan` of `specs/Plan.antt`, where `IsPlanOf` says of which
/// pattern it is.
#[derive(Drop)]
pub struct Plan {
    pub(crate) pattern: Pattern,
    pub(crate) nodes: Vec<Node>,
    pub(crate) variables: Vec<Variable>,
}

impl Model for Plan {
    ghost use Rattle.std.specs.Prelude.{◌≡◌, ◌≤◌, None, length, map};
    ghost use Rattle.mp_pattern.specs.Plan as plain;
    ghost use Rattle.mp_pattern.specs.PlanCode.{coded_plan};
    ghost use Rattle.mp_pattern.specs.declared.limits.TheConstants.{MAX_PATTERN_NODES, MAX_VARIABLES};

    ghost Value = { plain.Plan };

    ghost coded = { coded_plan };

    ghost use Rattle.mp_pattern.specs.View.{pattern_tree};
    ghost use Rattle.mp_pattern.specs.PlanView.{kept_of, names_of, stored, variable};

    ghost view = { λ p. record {
      pattern = pattern_tree p.pattern;
      nodes = plain.nodes (names_of p.variables.items) None 0 (pattern_tree p.pattern);
      variables = map variable p.variables.items;
    } };

    ghost invariant = { λ p.
        (map stored p.nodes.items
        ≡ map kept_of (plain.nodes (names_of p.variables.items) None 0 (pattern_tree p.pattern)))
        × ((length p.nodes.items ≤ MAX_PATTERN_NODES) × (length p.variables.items ≤ MAX_VARIABLES)) };
}

// What a reader is shown of the root of a pattern, whose variable has this number.
fn show(pattern: &Pattern, variable: Option<u32>) -> PlanNode<'_>
    ensures { shown_label result ≡ variable_label (pattern_tree pattern.now) variable }
{
    match pattern {
        Pattern::Sym(name) => PlanNode::Sym(name),
        Pattern::App(op, _) => PlanNode::App(*op),
        Pattern::Wild(shape, _) => PlanNode::Wild(shape, variable),
    }
}

// The subpattern at the place in preorder, from 0, or how many places behind the last one it is.
fn subpattern_at(pattern: &Pattern, place: u32) -> Result<&Pattern, u32>
    ensures found { IfOk result (λ p. slice_get (subpatterns (pattern_tree pattern.now)) place
        ≡ Some (pattern_tree p.now)) }
    ensures behind { IfErr result (λ rest. place ≡ pattern_nodes (pattern_tree pattern.now) + rest) }
{
    let Some(mut left) = place.checked_sub(1) else {
        return Ok(pattern);
    };
    if let Pattern::App(_, args) = pattern {
        for arg in &args.items {
            match subpattern_at(arg, left) {
                Ok(found) => return Ok(found),
                Err(behind) => left = behind,
            }
        }
    }
    Err(left)
}

// The variable has this name.
fn has_name(variable: &Variable, name: &[u8]) -> bool
    ensures { result ≡ same_name name.now variable.now.name }
{
    name == variable.name.bytes()
}

// The place of the variable of that name, from 0.
fn index_of_name(variables: &[Variable], name: &[u8]) -> Option<usize>
    ensures index { result ≡ position (λ v. same_name name.now v.name) variables.now }
    ensures within { IfSome result (λ i. i < length variables.now) }
{
    variables
        .iter()
        .position(|variable| has_name(variable, name))
}

impl Plan {
    /// The pattern that the plan was made of, as it stood.
    pub fn pattern(&self) -> &Pattern
        ensures { pattern_tree result.now ≡ self.now.pattern }
    {
        &self.pattern
    }

    /// How many nodes the pattern has, which are at most `MAX_PATTERN_NODES`.
    pub fn len(&self) -> u32
        ensures count { result ≡ length self.now.nodes }
        ensures most { result ≤ MAX_PATTERN_NODES }
    {
        self.nodes.len() as u32
    }

    // What is kept of the node of that number, where there is one.
    fn kept(&self, node: u32) -> Option<&Node>
        ensures { option_map (λ n. stored n.now) result ≡ option_map kept_of (slice_get self.now.nodes node) }
    {
        self.nodes.get(node as usize)
    }

    /// What stands at the node of that number. It is None exactly where no node has the number. It goes over the nodes
    /// before.
    pub fn node(&self, node: u32) -> Option<PlanNode<'_>>
        ensures { option_map shown_label result ≡ option_map (λ n. n.label) (slice_get self.now.nodes node) }
    {
        let variable = self.variable_at(node);
        match subpattern_at(&self.pattern, node) {
            Ok(pattern) => Some(show(pattern, variable)),
            Err(_) => None,
        }
    }

    /// The number of the variable at the node of that number, where a wildcard with a name stands there.
    pub fn variable_at(&self, node: u32) -> Option<u32>
        ensures { result ≡ option_and_then (λ n. label_variable n.label) (slice_get self.now.nodes node) }
    {
        match self.kept(node) {
            None => None,
            Some(own) => own.variable,
        }
    }

    /// The number of the node after the subpattern at the node of that number; of the last subpatterns it is the number
    /// of nodes. It is None exactly where no node has the number.
    pub fn end(&self, node: u32) -> Option<u32>
        ensures { result ≡ option_map (λ n. n.end) (slice_get self.now.nodes node) }
    {
        match self.kept(node) {
            None => None,
            Some(own) => Some(own.end),
        }
    }

    /// The number of the node whose argument the node of that number is. It is None exactly where no node has the
    /// number, and for the root, which has no parent.
    pub fn parent(&self, node: u32) -> Option<u32>
        ensures { result ≡ option_and_then (λ n. n.parent) (slice_get self.now.nodes node) }
    {
        match self.kept(node) {
            None => None,
            Some(own) => own.parent,
        }
    }

    /// How many variables the pattern has, which are at most `MAX_VARIABLES`.
    pub fn vars(&self) -> u32
        ensures count { result ≡ length self.now.variables }
        ensures most { result ≤ MAX_VARIABLES }
    {
        self.variables.len() as u32
    }

    /// The name of the variable of that number. It is None exactly where no variable has the number.
    pub fn var_name(&self, var: u32) -> Option<&Name>
        ensures { option_map (λ n. n.now) result ≡ option_map (λ v. v.name) (slice_get self.now.variables var) }
    {
        match self.variables.get(var as usize) {
            None => None,
            Some(variable) => Some(&variable.name),
        }
    }

    /// The form of the variable of that number (`variable_form` of `specs/Variables.antt`). It is None exactly where no
    /// variable has the number.
    pub fn var_form(&self, var: u32) -> Option<Form>
        ensures { option_map form result ≡ option_map (λ v. v.form) (slice_get self.now.variables var) }
    {
        match self.variables.get(var as usize) {
            None => None,
            Some(variable) => Some(variable.form),
        }
    }

    /// The number of the variable of that name. It is None exactly where no variable has the name. It takes no memory.
    pub fn find_var(&self, name: &[u8]) -> Option<u32>
        ensures { result ≡ position (λ v. same_name name.now v.name) self.now.variables }
    {
        match index_of_name(&self.variables, name) {
            None => None,
            Some(index) => Some(index as u32),
        }
    }
}
