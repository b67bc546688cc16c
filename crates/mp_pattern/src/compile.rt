//! How a pattern becomes a plan.
ghost use Rattle.std.specs.Prelude.{◌≡◌, ◌↔◌, ◌⊎◌, ◌+◌, ◌<◌, ◌≤◌, ◌++◌, ◌∷◌, ◌&&◌, ℕ, Some, None, true, not, [], map};
ghost use Rattle.std.specs.Prelude.{filter, length, OnOk, IfOk, IfSome, IsOk, Err, position, option_map, nat_lt};
ghost use Rattle.std.specs.Prelude.{if◌then◌else◌};
ghost use Rattle.std.specs.List.{list_any};
ghost use Rattle.mp_pattern.specs.View.{pattern_tree, wildcard};
ghost use Rattle.mp_pattern.specs.Size.{pattern_nodes};
ghost use Rattle.mp_pattern.specs.Subpatterns.{subpatterns};
ghost use Rattle.mp_pattern.specs.Value.{same_name};
ghost use Rattle.mp_pattern.specs.PatternTree.{is_sequence};
ghost use Rattle.mp_pattern.specs.Variables.{uses, variables, comm_above, form_among};
ghost use Rattle.mp_pattern.specs.Clash.{first_clash_after};
ghost use Rattle.mp_pattern.specs.Plan.{nodes, IsPlanOf};
ghost use Rattle.mp_pattern.specs.PlanView.{form, kept_of, names_of, root_variable, stored, variable};
ghost use Rattle.mp_pattern.specs.UseView.{occurrence};
ghost use Rattle.mp_pattern.specs.PlanFault.{plan_fault, IsCompiled, OrMemory};

use crate::above::is_comm_above;
use crate::copy::copy_pattern;
use crate::entry::Form;
use crate::limits::{MAX_PATTERN_NODES, MAX_VARIABLES};
use crate::normal::is_loose;
use crate::outline::{Occurrence, Outline, first_clash, node_count, outline_of};
use crate::pattern::{Pattern, Shape};
use crate::plan::{Node, Plan, Variable};
use mp_term::{Memory, Name, Signature};
use std::alloc::{AllocError, Global};
use thiserror::Error;

/// Why a pattern has no plan.
#[derive(Debug, Drop, Error)]
pub enum PlanFault {
    /// The root is a plus, star, counted or optional wildcard.
    #[error("the whole pattern is a plus, star, counted or optional wildcard")]
    LooseSequence,
    /// The pattern has more than `MAX_PATTERN_NODES` nodes: so many, or the greatest `u32` where there are more.
    #[error("too many nodes: {count}")]
    TooManyNodes { count: u32 },
    /// The pattern has more than `MAX_VARIABLES` variables: so many.
    #[error("too many variables: {count}")]
    TooManyVars { count: u32 },
    /// The wildcard at this node is of another class, kind, default or count than one of the same variable before it.
    #[error("another wildcard of the variable at node {node}")]
    KindClash { node: u32 },
    /// There was no memory.
    #[error("want of memory")]
    Memory,
}

impl From<Memory> for PlanFault {
    ghost use Rattle.mp_pattern.specs.declared.compile.PlanFault.TheVariants as fault;

    ghost from_gives = { λ _ e. e ≡ fault.Memory };

    fn from(_memory: Memory) -> PlanFault {
        PlanFault::Memory
    }
}

impl From<AllocError> for PlanFault {
    ghost use Rattle.mp_pattern.specs.declared.compile.PlanFault.TheVariants as fault;

    ghost from_gives = { λ _ e. e ≡ fault.Memory };

    fn from(_error: AllocError) -> PlanFault {
        PlanFault::Memory
    }
}

// The place of the name among the names, from 0.
fn index_of(names: &[&Name], name: &Name) -> Option<usize>
    ensures index { result ≡ position (same_name name.now) (map (λ n. n.now) names.now) }
    ensures within { IfSome result (λ i. i < length names.now) }
{
    for (i, other) in names.iter().enumerate() {
        if *name == **other {
            return Some(i);
        }
    }
    None
}

// The number of the root's variable among the names, from 0, where the root is a wildcard that has one.
fn root_variable(names: &[&Name], pattern: &Pattern) -> Option<u32>
    requires { length names.now ≤ MAX_VARIABLES }
    ensures { result ≡ root_variable (map (λ n. n.now) names.now) (pattern_tree pattern.now) }
{
    match pattern {
        Pattern::Wild(_, Some(name)) => match index_of(names, name) {
            None => None,
            Some(index) => Some(index as u32),
        },
        _ => None,
    }
}

// Adds what is kept of a node.
fn push_node(
    out: &mut Vec<Node>,
    end: u32,
    parent: Option<u32>,
    variable: Option<u32>,
) -> Result<(), Memory>
    ensures nodes { OnOk result (map stored out.new.items
        ≡ map stored out.old.items ++ record { end = end; parent = parent; variable = variable } ∷ []) }
    ensures count { OnOk result (length out.new.items ≡ length out.old.items + 1) }
{
    out.push(Node {
        end,
        parent,
        variable,
    })?;
    Ok(())
}

// Adds what is kept of the nodes of the pattern in preorder, the root with this parent, as the names number its
// variables.
fn push_nodes(
    out: &mut Vec<Node>,
    names: &[&Name],
    pattern: &Pattern,
    parent: Option<u32>,
) -> Result<(), Memory>
    requires variables { length names.now ≤ MAX_VARIABLES }
    requires room { length out.old.items + pattern_nodes (pattern_tree pattern.now) ≤ MAX_PATTERN_NODES }
    ensures nodes { OnOk result (map stored out.new.items ≡ map stored out.old.items
        ++ map kept_of (nodes (map (λ n. n.now) names.now) parent (length out.old.items) (pattern_tree pattern.now))) }
    ensures count { OnOk result
        (length out.new.items ≡ length out.old.items + pattern_nodes (pattern_tree pattern.now)) }
{
    let number = out.len() as u32;
    let variable = root_variable(names, pattern);
    push_node(out, number + node_count(pattern), parent, variable)?;
    if let Pattern::App(_, args) = pattern {
        for arg in &args.items {
            push_nodes(out, names, arg, Some(number))?;
        }
    }
    Ok(())
}

// The variable has a plus, star or counted wildcard.
fn has_sequence(occurrences: &[Occurrence<'_>], name: &Name) -> bool
    ensures { result
        ≡ list_any (λ _. true)
        (filter (λ u. same_name name.now u.name && is_sequence u.wildcard) (map occurrence occurrences.now)) }
{
    for occurrence in occurrences {
        if *name == *occurrence.name && occurrence.shape.is_sequence() {
            return true;
        }
    }
    false
}

// The variable has a plus, star or counted wildcard directly under an operation that isn't commutative.
fn has_ordered_sequence(sig: &Signature, occurrences: &[Occurrence<'_>], name: &Name) -> bool
    ensures { result ≡ list_any (λ u. not (comm_above sig.now u.under))
        (filter (λ u. same_name name.now u.name && is_sequence u.wildcard) (map occurrence occurrences.now)) }
{
    for occurrence in occurrences {
        if *name == *occurrence.name
            && occurrence.shape.is_sequence()
            && !is_comm_above(sig, occurrence.under)
        {
            return true;
        }
    }
    false
}

// The form of the variable.
fn form_among(sig: &Signature, occurrences: &[Occurrence<'_>], name: &Name) -> Form
    ensures { form result ≡ form_among sig.now (map occurrence occurrences.now) name.now }
{
    if has_ordered_sequence(sig, occurrences, name) {
        Form::Seq
    } else if has_sequence(occurrences, name) {
        Form::Bag
    } else {
        Form::One
    }
}

// The variable of this name with its form.
fn variable_of(
    alloc: Global,
    sig: &Signature,
    occurrences: &[Occurrence<'_>],
    name: &Name,
) -> Result<Variable, Memory>
    ensures { IfOk result (λ v. variable v
        ≡ record { name = name.now; form = form_among sig.now (map occurrence occurrences.now) name.now }) }
{
    let form = form_among(sig, occurrences, name);
    let name = name.copy(alloc)?;
    Ok(Variable { name, form })
}

// The variables of these names with their forms.
fn variables_of(
    alloc: Global,
    sig: &Signature,
    occurrences: &[Occurrence<'_>],
    names: &[&Name],
) -> Result<Vec<Variable>, Memory>
    ensures variables { IfOk result (λ vs. map variable vs.items
        ≡ map (λ x. record { name = x; form = form_among sig.now (map occurrence occurrences.now) x })
        (map (λ n. n.now) names.now)) }
    ensures names { IfOk result (λ vs. names_of vs.items ≡ map (λ n. n.now) names.now) }
{
    let mut variables = Vec::with_capacity(alloc, names.len())?;
    for name in names {
        variables.push(variable_of(alloc, sig, occurrences, name)?)?;
    }
    Ok(variables)
}

// What the pattern's variables and wildcards have against a plan.
fn fault(outline: &Outline<'_>) -> Option<PlanFault>
    requires names { length outline.now.names.items ≤ MAX_PATTERN_NODES }
    requires patterns { length outline.now.patterns.items ≤ MAX_PATTERN_NODES }
    ensures { result ≡ (
        let names = length outline.now.names.items in
        let patterns = map (λ p. pattern_tree p.now) outline.now.patterns.items in
        if nat_lt MAX_VARIABLES names then Some (PlanFault.TooManyVars names)
        else option_map PlanFault.KindClash (first_clash_after [] patterns)) }
{
    let count = outline.names.len();
    if MAX_VARIABLES < count {
        return Some(PlanFault::TooManyVars {
            count: count as u32,
        });
    }
    match first_clash(&outline.patterns) {
        None => None,
        Some(node) => Some(PlanFault::KindClash { node: node as u32 }),
    }
}

// What is kept of the nodes of the pattern, as the names number its variables.
fn nodes_of(alloc: Global, names: &[&Name], pattern: &Pattern) -> Result<Vec<Node>, Memory>
    requires variables { length names.now ≤ MAX_VARIABLES }
    requires few { pattern_nodes (pattern_tree pattern.now) ≤ MAX_PATTERN_NODES }
    ensures nodes { IfOk result (λ ns. map stored ns.items
        ≡ map kept_of (nodes (map (λ n. n.now) names.now) None 0 (pattern_tree pattern.now))) }
    ensures count { IfOk result (λ ns. length ns.items ≡ pattern_nodes (pattern_tree pattern.now)) }
{
    let mut nodes = Vec::with_capacity(alloc, node_count(pattern) as usize)?;
    push_nodes(&mut nodes, names, pattern, None)?;
    Ok(nodes)
}

// The plan of the pattern, which has this outline and no fault.
fn build(
    alloc: Global,
    sig: &Signature,
    pattern: &Pattern,
    outline: &Outline<'_>,
) -> Result<Plan, Memory>
    requires nodes { pattern_nodes (pattern_tree pattern.now) ≤ MAX_PATTERN_NODES }
    requires few { length outline.now.names.items ≤ MAX_VARIABLES }
    requires occurrences { map occurrence outline.now.occurrences.items ≡ uses None (pattern_tree pattern.now) }
    requires names { map (λ n. n.now) outline.now.names.items ≡ variables (pattern_tree pattern.now) }
    ensures { IfOk result (λ plan. IsPlanOf sig.now (pattern_tree pattern.now) plan) }
{
    let nodes = nodes_of(alloc, &outline.names, pattern)?;
    let variables = variables_of(alloc, sig, &outline.occurrences, &outline.names)?;
    let pattern = copy_pattern(alloc, pattern)?;
    Ok(Plan {
        pattern,
        nodes,
        variables,
    })
}

// The plan of the pattern, or the first fault that it has.
fn compiled(alloc: Global, sig: &Signature, pattern: &Pattern) -> Result<Plan, PlanFault>
    ensures { IsCompiled sig.now (pattern_tree pattern.now) result }
{
    if is_loose(pattern) {
        return Err(PlanFault::LooseSequence);
    }
    let count = node_count(pattern);
    if MAX_PATTERN_NODES < count {
        return Err(PlanFault::TooManyNodes { count });
    }
    let outline = outline_of(alloc, pattern)?;
    if let Some(fault) = fault(&outline) {
        return Err(fault);
    }
    let plan = build(alloc, sig, pattern, &outline)?;
    Ok(plan)
}

impl Plan {
    /// The plan of a pattern over a signature that holds its operations (`IsPlanOf` of `specs/Plan.antt`). The pattern
    /// is taken as it stands, normal or not. An operation that isn't held would count as one that isn't commutative.
    ///
    /// The refusals come in this order (`plan_fault` of `specs/PlanFault.antt`), and leave nothing. `LooseSequence`
    /// comes exactly where the root is a plus, star, counted or optional wildcard. `TooManyNodes` comes exactly where
    /// the pattern has more than `MAX_PATTERN_NODES` nodes, a wildcard with its default being one, with their number,
    /// or the greatest `u32` where there are more. `TooManyVars` comes exactly where it has more than `MAX_VARIABLES`
    /// variables, with their number. `KindClash` comes exactly where the wildcard at some node has the variable of one
    /// before it and another class, kind, default or count, with the least such node (`first_clash` of
    /// `specs/Clash.antt`). `Memory` comes where there is no room for the plan, also in place of the last two.
    pub fn compile(alloc: Global, sig: &Signature, pattern: &Pattern) -> Result<Plan, PlanFault>
        ensures plan { IfOk result (λ plan. IsPlanOf sig.now (pattern_tree pattern.now) plan) }
        ensures accepted { OrMemory result (IsOk result ↔ (plan_fault (pattern_tree pattern.now) ≡ None)) }
        ensures loose { (result ≡ Err PlanFault.LooseSequence)
            ↔ (plan_fault (pattern_tree pattern.now) ≡ Some PlanFault.LooseSequence) }
        ensures nodes { (n : ℕ) → (result ≡ Err (PlanFault.TooManyNodes n))
            ↔ (plan_fault (pattern_tree pattern.now) ≡ Some (PlanFault.TooManyNodes n)) }
        ensures vars { (n : ℕ)
            → OrMemory result ((result ≡ Err (PlanFault.TooManyVars n))
            ↔ (plan_fault (pattern_tree pattern.now) ≡ Some (PlanFault.TooManyVars n))) }
        ensures clash { (n : ℕ)
            → OrMemory result ((result ≡ Err (PlanFault.KindClash n))
            ↔ (plan_fault (pattern_tree pattern.now) ≡ Some (PlanFault.KindClash n))) }
    {
        compiled(alloc, sig, pattern)
    }
}
