//! The terms that a table of instructions brings to the table of a walk.
ghost use Rattle.std.specs.Prelude.{◌≡◌, ◌≤◌, ◌++◌, map, IfOk, IsTrue, OnOk};
ghost use Rattle.mp_term.specs.Signature.{Sig};
ghost use Rattle.mp_term.specs.Size.{all_nodes};
ghost use Rattle.mp_term.specs.View.{tree};
ghost use Rattle.mp_pattern.specs.NetTokenView.{net_token};
ghost use Rattle.mp_table.specs.declared.limits.TheConstants.{MAX_CONSTANT_NODES};
ghost use Rattle.mp_walk.specs.CodeConstants.{AreCodeConstants, token_constants};
ghost use Rattle.mp_walk.specs.Walkable.{IsWalkable};

use crate::code::Code;
use mp_pattern::{NetToken, push_pattern_constants, term_listing};
use mp_table::MAX_CONSTANT_NODES;
use mp_term::{Memory, Term, Terms, copy_term, node_count};
use std::alloc::Global;

// Adds the default of a token, or the symbols and the defaults of its pattern.
fn push_constants(alloc: Global, found: &mut Vec<Term>, token: &NetToken) -> Result<(), Memory>
    ensures { OnOk result (map tree found.new.items
        ≡ map tree found.old.items ++ token_constants (net_token token.now)) }
{
    match token {
        NetToken::Opt(_, default) => found.push(copy_term(alloc, default)?)?,
        NetToken::Comm(pattern) => push_pattern_constants(alloc, found, pattern)?,
        _ => {}
    }
    Ok(())
}

// The terms have no more nodes than a table has room for.
fn are_few(terms: &[Term]) -> bool
    ensures { IsTrue result → all_nodes (map tree terms.now) ≤ MAX_CONSTANT_NODES }
{
    let mut nodes: u64 = 0;
    for term in terms {
        nodes = nodes.saturating_add(node_count(term));
    }
    nodes <= MAX_CONSTANT_NODES
}

impl Code {
    /// The terms that the instructions bring to the table of any subject, each once: with them it is a table on which
    /// the instructions may be walked (`AreCodeConstants` and `IsCodeTable` of `specs/CodeConstants.antt`). `Memory`
    /// comes where there is no room for them, in a table too.
    pub fn constants(&self, alloc: Global) -> Result<Terms, Memory>
        ensures { (sig : Sig) → IsWalkable sig self.now.instrs
            → IfOk result (AreCodeConstants sig self.now.instrs) }
    {
        let mut found = Vec::new(alloc);
        for instr in self.instrs.as_slice() {
            push_constants(alloc, &mut found, &instr.token)?;
        }
        let terms = term_listing(alloc, found)?;
        if are_few(terms.as_slice()) {
            Ok(terms)
        } else {
            Err(Memory)
        }
    }
}
