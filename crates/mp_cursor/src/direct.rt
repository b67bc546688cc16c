//! What a syntactic pattern takes of a term, node against node: a table of the term isn't needed for it.
ghost use Rattle.std.specs.Prelude.{◌≡◌, [], None, MatchBool, map, option_map, IfOk};
ghost use Rattle.mp_term.specs.Tree.{trees};
ghost use Rattle.mp_term.specs.View.{tree};
ghost use Rattle.mp_pattern.specs.PatternTree.{patterns};
ghost use Rattle.mp_pattern.specs.View.{pattern_tree, wildcard};
ghost use Rattle.mp_subst.specs.View.{subst_of};
ghost use Rattle.mp_theory.specs.Filled.{bound};
ghost use Rattle.mp_theory.specs.Shape.{suits};
ghost use Rattle.mp_cursor.specs.Direct.{taken, all_taken};

use mp_pattern::{Pattern, Shape};
use mp_subst::{Binding, Bindings, Subst, Value};
use mp_term::{Memory, Name, Signature, Term, copy_term, in_kind};
use std::alloc::Global;

// Whether the wildcard takes the term.
fn suits(sig: &Signature, shape: &Shape, term: &Term) -> bool
    ensures { result ≡ suits sig.now (wildcard shape.now) (tree term.now) }
{
    match shape {
        Shape::Kind(kind) => in_kind(sig, *kind, term),
        _ => true,
    }
}

// Binds the variable, if there is one, to the term too; false comes where it has another value.
fn bind(alloc: Global, name: &Option<Name>, term: &Term, subst: &mut Subst) -> Result<bool, Memory>
    ensures { IfOk result (λ b. let o = bound name.now (tree term.now) (subst_of subst.old) in
        MatchBool b (o ≡ Some (subst_of subst.new)) (o ≡ None)) }
{
    let Some(name) = name else {
        return Ok(true);
    };
    match subst.value_of(name) {
        Some(Value::One(old)) => return Ok(*old == *term),
        Some(Value::Seq(_)) => return Ok(false),
        Some(Value::Bag(_)) => return Ok(false),
        None => {}
    }
    let name = name.copy(alloc)?;
    let value = Value::One(copy_term(alloc, term)?);
    subst.bindings.push(Binding { name, value })?;
    Ok(true)
}

// Binds the variables of the pattern to what they take of the term; false comes where the pattern doesn't take it.
#[cycle(take)]
fn take(
    alloc: Global,
    sig: &Signature,
    pattern: &Pattern,
    term: &Term,
    subst: &mut Subst,
) -> Result<bool, Memory>
    ensures { IfOk result (λ b. let o = taken sig.now (pattern_tree pattern.now) (tree term.now) (subst_of subst.old) in
        MatchBool b (o ≡ Some (subst_of subst.new)) (o ≡ None)) }
{
    match (pattern, term) {
        (Pattern::Sym(name), Term::Sym(other)) => Ok(*name == *other),
        (Pattern::App(op, children), Term::App(own, args)) if op.0 == own.0 => {
            take_each(alloc, sig, children.as_slice(), args.as_slice(), subst)
        }
        (Pattern::Wild(shape, name), _) => {
            if !suits(sig, shape, term) {
                return Ok(false);
            }
            bind(alloc, name, term, subst)
        }
        _ => Ok(false),
    }
}

// The same for each of the patterns and the term at its place.
#[cycle(take)]
fn take_each(
    alloc: Global,
    sig: &Signature,
    children: &[Pattern],
    args: &[Term],
    subst: &mut Subst,
) -> Result<bool, Memory>
    ensures { IfOk result (λ b. let o = all_taken sig.now (patterns (map pattern_tree children.now))
        (trees (map tree args.now)) (subst_of subst.old) in
        MatchBool b (o ≡ Some (subst_of subst.new)) (o ≡ None)) }
{
    match children {
        [] => Ok(args.is_empty()),
        [child, later @ ..] => match args {
            [] => Ok(false),
            [arg, rest @ ..] => {
                if !take(alloc, sig, child, arg, subst)? {
                    return Ok(false);
                }
                take_each(alloc, sig, later, rest, subst)
            }
        },
    }
}

// The substitution with what the pattern's variables take of the term, where it takes it.
pub(crate) fn direct_subst(
    alloc: Global,
    sig: &Signature,
    pattern: &Pattern,
    term: &Term,
) -> Result<Option<Subst>, Memory>
    ensures { IfOk result (λ s. option_map subst_of s ≡ taken sig.now (pattern_tree pattern.now) (tree term.now) []) }
{
    let mut subst = Subst {
        bindings: Bindings::new(alloc),
    };
    if !take(alloc, sig, pattern, term, &mut subst)? {
        return Ok(None);
    }
    Ok(Some(subst))
}
