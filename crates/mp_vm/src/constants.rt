//! The constants of programs.
ghost use Rattle.std.specs.Prelude.{◌≡◌, [], ◌∷◌, ◌++◌, map, flat_map, Contains, IfOk, OnOk};
ghost use Rattle.mp_term.specs.View.{tree};
ghost use Rattle.mp_term.specs.Order.{tree_cmp};
ghost use Rattle.mp_term.specs.Listing.{IsListing};
ghost use Rattle.mp_pattern.specs.NetTokenView.{net_token};
ghost use Rattle.mp_program.specs.ProgramView.{program_view};
ghost use Rattle.mp_vm.specs.ProgramConstants.{token_terms, program_constants};

use mp_pattern::{NetToken, push_cond_constants, push_pattern_constants, term_listing};
use mp_program::Program;
use mp_term::{Memory, Term, Terms, copy_term};
use std::alloc::Global;

// Adds the symbol of a token, its default, or the symbols and the defaults of its pattern.
fn push_token(alloc: Global, found: &mut Vec<Term>, token: &NetToken) -> Result<(), Memory>
    ensures { OnOk result (map tree found.new.items
        ≡ map tree found.old.items ++ token_terms (net_token token.now)) }
{
    match token {
        NetToken::Sym(name) => found.push(Term::Sym(name.copy(alloc)?))?,
        NetToken::Opt(_, default) => found.push(copy_term(alloc, default)?)?,
        NetToken::Comm(pattern) => push_pattern_constants(alloc, found, pattern)?,
        _ => {}
    }
    Ok(())
}

/// The constants of a program: every symbol and every default of its paths, and every ground operand of its tests
/// (`program_constants` of `specs/ProgramConstants.antt`), ascending and without repeats. `Memory` comes where there is
/// no room for them.
pub fn program_constants(alloc: Global, program: &Program) -> Result<Terms, Memory>
    ensures { IfOk result (IsListing tree_cmp (Contains (program_constants (program_view program.now)))) }
{
    let mut found = Vec::new(alloc);
    for instr in program.code.as_slice() {
        push_token(alloc, &mut found, &instr.token)?;
    }
    for test in program.tests.as_slice() {
        push_cond_constants(alloc, &mut found, test)?;
    }
    term_listing(alloc, found)
}
