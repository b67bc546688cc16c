//! The subterms of terms in preorder, a subterm as often as it occurs.
ghost use Rattle.std.specs.Prelude.{◌≡◌, ◌+◌, ◌^◌, ◌<◌, ◌++◌, map, length, OnOk, IfOk, ◌∷◌, []};
ghost use Rattle.mp_term.specs.View.{tree};
ghost use Rattle.mp_term.specs.Size.{node_count, all_nodes};
ghost use Rattle.mp_table.specs.Subterms.{arguments};
ghost use Rattle.mp_table.specs.Preorder.{preorder, all_preorder};
ghost use Rattle.mp_table.specs.Text.{shown, counts, AreUnranked};

use crate::node::Node;
use mp_term::{Memory, Term, Terms};
use std::alloc::Global;

// Adds a term alone.
fn push_node<'a>(found: &mut Vec<Node<'a>>, term: &'a Term) -> Result<(), Memory>
    requires { AreUnranked found.old.items }
    ensures terms { OnOk result (shown found.new.items ≡ shown found.old.items ++ tree term.now ∷ []) }
    ensures nodes { OnOk result (counts found.new.items ≡ counts found.old.items ++ 1 ∷ []) }
    ensures unranked { OnOk result (AreUnranked found.new.items) }
{
    found.push(Node {
        term,
        nodes: 1,
        rank: u32::MAX,
    })?;
    Ok(())
}

// Adds a term and its subterms.
#[cycle(push_subterms)]
fn push_subterms<'a>(found: &mut Vec<Node<'a>>, term: &'a Term) -> Result<(), Memory>
    requires short { length found.old.items + node_count (tree term.now) < 2 ^ 32 }
    requires unranked { AreUnranked found.old.items }
    ensures terms { OnOk result (shown found.new.items ≡ shown found.old.items ++ preorder (tree term.now)) }
    ensures nodes { OnOk result
        (counts found.new.items ≡ counts found.old.items ++ map node_count (preorder (tree term.now))) }
    ensures unranked { OnOk result (AreUnranked found.new.items) }
{
    let start = found.len();
    push_node(found, term)?;
    push_arguments(found, term)?;
    found[start].nodes = (found.len() - start) as u32;
    Ok(())
}

// Adds the arguments of a term and their subterms.
#[cycle(push_subterms)]
fn push_arguments<'a>(found: &mut Vec<Node<'a>>, term: &'a Term) -> Result<(), Memory>
    requires short { length found.old.items + all_nodes (arguments (tree term.now)) < 2 ^ 32 }
    requires unranked { AreUnranked found.old.items }
    ensures terms { OnOk result
        (shown found.new.items ≡ shown found.old.items ++ all_preorder (arguments (tree term.now))) }
    ensures nodes { OnOk result
        (counts found.new.items
        ≡ counts found.old.items ++ map node_count (all_preorder (arguments (tree term.now)))) }
    ensures unranked { OnOk result (AreUnranked found.new.items) }
{
    if let Term::App(_, args) = term {
        for arg in args.as_slice() {
            match arg {
                Term::Sym(_) => push_node(found, arg)?,
                Term::App(_, _) => push_subterms(found, arg)?,
            }
        }
    }
    Ok(())
}

// The room that most terms need.
const FEW: usize = 64;

// The subterms of the subject, and then those of the constants.
pub(crate) fn collect<'a>(
    alloc: Global,
    subject: &'a Term,
    constants: &'a Terms,
) -> Result<Vec<Node<'a>>, Memory>
    requires { node_count (tree subject.now) + all_nodes constants.now < 2 ^ 32 }
    ensures terms { IfOk result (λ t. shown t.items ≡ all_preorder (tree subject.now ∷ constants.now)) }
    ensures nodes { IfOk result
        (λ t. counts t.items ≡ map node_count (all_preorder (tree subject.now ∷ constants.now))) }
    ensures unranked { IfOk result (λ t. AreUnranked t.items) }
{
    let mut found = Vec::with_capacity(alloc, FEW)?;
    push_subterms(&mut found, subject)?;
    for constant in constants.as_slice() {
        push_subterms(&mut found, constant)?;
    }
    Ok(found)
}
