//! Makes terms and patterns of expressions, and checks them on the way.

ghost use Rattle.std.specs.Prelude.{◌≡◌, [], ◌++◌, true, map};
ghost use Rattle.mp_term.specs.Signature.{well_formed};
ghost use Rattle.mp_term.specs.View.{tree};
ghost use Rattle.mp_term.specs.Normal.{normal};
ghost use Rattle.mp_build.specs.declared.fault.TextKind.TheVariants.{UnknownKind};
ghost use Rattle.mp_pattern.specs.View.{pattern_tree, wildcard};
ghost use Rattle.mp_parser.specs.Syntax.{trees, InfixOf};
ghost use Rattle.mp_parser.specs.View.{spot_of, wildcard_of, expr_tree, spot_of_sign};
ghost use Rattle.mp_build.specs.Answers.{Gives, Fails};
ghost use Rattle.mp_build.specs.Build.{kind_shape, variable_of, term_of, pattern_of};
ghost use Rattle.mp_build.specs.Wildcards.{pattern_wildcards, all_pattern_wildcards};
ghost use Rattle.mp_build.specs.WildcardView.{wildcard_view};
ghost use Rattle.mp_build.specs.Checks.{fault_if, kind_unknown, term_wildcard_faults, loose_faults};
ghost use Rattle.mp_build.specs.Checks.{whole_pattern_faults, symbol_faults, term_faults, all_term_faults};
ghost use Rattle.mp_build.specs.Checks.{pattern_faults, all_pattern_faults};

use crate::arguments::{Arguments, head_op, sign_op};
use crate::extent::{count_of, counted_shape, marked_shape};
use crate::fault::{TextError, TextKind, error_at};
use crate::operations::{are_few_and_free, find_decl};
use crate::wildcard::{PatternWildcard, build_counted, build_optional, build_wildcard};
use mp_pattern::{Pattern, Patterns, Shape};
use mp_syntax::{Expr, InfixSign, Place, Wildcard, Word};
use mp_term::{Name, NameFault, Signature, Term, Terms, is_normal, normalise};
use std::alloc::Global;

/// The name that a word is, any word being one.
///
/// `Memory`: memory ran out. No other error comes.
#[inline(always)]
pub fn new_name(alloc: Global, word: Word<'_>) -> Result<Name, TextError>
    ensures { Gives result [] (λ n. n ≡ word.entry.text.now) }
{
    match Name::new(alloc, word.text) {
        Ok(name) => Ok(name),
        Err(NameFault::Memory) => Err(TextError::Memory),
        Err(NameFault::Spelling) => unreachable!(),
    }
}

/// The symbol of a word, as its name.
///
/// - `Text`: an operation of the signature has the name (`BareOperation`), at the word, by `symbol_faults` of
///   `specs/Checks.antt`.
/// - `Memory`: memory ran out.
#[inline(always)]
pub fn symbol(alloc: Global, sig: &Signature, word: Word<'_>) -> Result<Name, TextError>
    ensures { Gives result (symbol_faults sig.now (spot_of word.entry)) (λ n. n ≡ word.entry.text.now) }
{
    if find_decl(sig, word.text).is_some() {
        return Err(error_at(TextKind::BareOperation, word.place));
    }
    new_name(alloc, word)
}

/// The term of an expression as it is written, or its first fault.
#[cycle(build_term)]
fn build_term(alloc: Global, sig: &Signature, expr: &Expr<'_>) -> Result<Term, TextError>
    ensures { Gives result (term_faults sig.now (expr_tree expr.now))
        (λ t. tree t ≡ term_of sig.now (expr_tree expr.now)) }
{
    match *expr {
        Expr::Symbol(word) => {
            let name = symbol(alloc, sig, word)?;
            Ok(Term::Sym(name))
        }
        Expr::Apply(name, args) => {
            let op = head_op(sig, name, Arguments::Terms(args))?;
            let terms = build_terms(alloc, sig, args)?;
            Ok(Term::App(op, terms))
        }
        Expr::Infix {
            open: place,
            sign,
            operands,
        } => infix_term(alloc, sig, place, sign, operands),
        Expr::Wild(wild) => Err(wildcard_in_term(sig, wild)),
        Expr::Optional { wildcard, .. } => Err(wildcard_in_term(sig, *wildcard)),
        Expr::Counted { wildcard, .. } => Err(wildcard_in_term(sig, *wildcard)),
        Expr::Variable(name) => Err(error_at(TextKind::WildcardInTerm, name.place)),
    }
}

/// The term of an expression in normal form: that of `term_of` of `specs/Build.antt`.
///
/// - `Text`: the first fault of the expression as a term, by `term_faults` of `specs/Checks.antt`.
/// - `Memory`: memory ran out.
pub fn normal_term(alloc: Global, sig: &Signature, expr: &Expr<'_>) -> Result<Term, TextError>
    ensures { Gives result (term_faults sig.now (expr_tree expr.now))
        (λ t. tree t ≡ normal sig.now (term_of sig.now (expr_tree expr.now))) }
{
    let term = build_term(alloc, sig, expr)?;
    normal_built(alloc, sig, term)
}

/// The normal form of a well-formed term, by `normal` of mp_term's `specs/Normal.antt`: the term itself, where it is in
/// normal form.
///
/// `Memory`: memory ran out. No other error comes.
pub fn normal_built(alloc: Global, sig: &Signature, term: Term) -> Result<Term, TextError>
    requires { well_formed sig.now (tree term) ≡ true }
    ensures { Gives result [] (λ t. tree t ≡ normal sig.now (tree term)) }
{
    if are_few_and_free(sig) || is_normal(sig, &term) {
        return Ok(term);
    }
    let term = normalise(alloc, sig, term)?;
    Ok(term)
}

/// The first fault of a wildcard in a term, where none may stand: no kind has the name that it gives (`UnknownKind`),
/// or that it is there (`WildcardInTerm`); both at the wildcard, by `term_wildcard_faults` of `specs/Checks.antt`.
///
/// It takes no memory.
pub fn wildcard_in_term(sig: &Signature, wild: Wildcard<'_>) -> TextError
    ensures { Fails result (term_wildcard_faults sig.now (wildcard_of wild.entry)) }
{
    match shape(sig, &wild, Shape::Dot) {
        Ok(_) => error_at(TextKind::WildcardInTerm, wild.place),
        Err(error) => error,
    }
}

/// The term of a sign between operands, or its first fault.
#[cycle(build_term)]
fn infix_term(
    alloc: Global,
    sig: &Signature,
    place: Place,
    sign: InfixSign<'_>,
    operands: &[Expr<'_>],
) -> Result<Term, TextError>
    ensures { Gives result
        (term_faults sig.now (InfixOf place (spot_of_sign sign.entry) (trees (map expr_tree operands.now))))
        (λ t. tree t ≡ term_of sig.now (InfixOf place (spot_of_sign sign.entry) (trees (map expr_tree operands.now)))) }
{
    match sign_op(sig, place, sign, Arguments::Terms(operands))? {
        None => {
            if let [first, ..] = operands {
                build_term(alloc, sig, first)?;
            }
            Err(error_at(TextKind::UnknownOp, sign.place))
        }
        Some(op) => {
            let terms = build_terms(alloc, sig, operands)?;
            Ok(Term::App(op, terms))
        }
    }
}

/// The terms of expressions, or their first fault.
#[cycle(build_term)]
fn build_terms(alloc: Global, sig: &Signature, exprs: &[Expr<'_>]) -> Result<Terms, TextError>
    ensures { Gives result (all_term_faults sig.now (trees (map expr_tree exprs.now)))
        (λ ts. ts ≡ map (term_of sig.now) (map expr_tree exprs.now)) }
{
    let mut terms = Terms::with_room(alloc, exprs.len())?;
    for expr in exprs {
        let term = build_term(alloc, sig, expr)?;
        terms.push(term)?;
    }
    Ok(terms)
}

/// The pattern of an expression as it is written, behind these wildcards of the same pattern, or its first fault.
///
/// The wildcards of the expression are added to them.
#[cycle(build_pattern)]
fn build_pattern<'a>(
    alloc: Global,
    sig: &Signature,
    expr: &Expr<'a>,
    before: &mut Vec<PatternWildcard<'a>>,
) -> Result<Pattern, TextError>
    ensures { Gives result (pattern_faults sig.now (map wildcard_view before.old.items) (expr_tree expr.now))
        (λ p. (pattern_tree p ≡ pattern_of sig.now (expr_tree expr.now))
        × (map wildcard_view before.new.items
        ≡ map wildcard_view before.old.items ++ pattern_wildcards sig.now (expr_tree expr.now))) }
{
    match *expr {
        Expr::Symbol(word) => {
            let name = symbol(alloc, sig, word)?;
            Ok(Pattern::Sym(name))
        }
        Expr::Apply(name, args) => {
            let op = head_op(sig, name, Arguments::Patterns(args))?;
            let patterns = build_patterns(alloc, sig, args, before)?;
            Ok(Pattern::App(op, patterns))
        }
        Expr::Infix {
            open: place,
            sign,
            operands,
        } => infix_pattern(alloc, sig, place, sign, operands, before),
        Expr::Wild(wild) => build_wildcard(alloc, sig, wild, before),
        Expr::Optional {
            wildcard,
            others,
            default,
        } => build_optional(alloc, sig, *wildcard, others, default, before),
        Expr::Counted {
            wildcard,
            count,
            open: is_open,
        } => build_counted(alloc, sig, *wildcard, *count, is_open, before),
        Expr::Variable(name) => Err(error_at(TextKind::WildcardInTerm, name.place)),
    }
}

/// The pattern of a sign between operands behind these wildcards, or its first fault.
#[cycle(build_pattern)]
fn infix_pattern<'a>(
    alloc: Global,
    sig: &Signature,
    place: Place,
    sign: InfixSign<'a>,
    operands: &[Expr<'a>],
    before: &mut Vec<PatternWildcard<'a>>,
) -> Result<Pattern, TextError>
    ensures { Gives result
        (pattern_faults sig.now (map wildcard_view before.old.items)
        (InfixOf place (spot_of_sign sign.entry) (trees (map expr_tree operands.now))))
        (λ p. (pattern_tree p ≡ pattern_of sig.now
        (InfixOf place (spot_of_sign sign.entry) (trees (map expr_tree operands.now))))
        × (map wildcard_view before.new.items
        ≡ map wildcard_view before.old.items ++ all_pattern_wildcards sig.now
        (trees (map expr_tree operands.now)))) }
{
    match sign_op(sig, place, sign, Arguments::Patterns(operands))? {
        None => {
            if let [first, ..] = operands {
                build_pattern(alloc, sig, first, before)?;
            }
            Err(error_at(TextKind::UnknownOp, sign.place))
        }
        Some(op) => {
            let patterns = build_patterns(alloc, sig, operands, before)?;
            Ok(Pattern::App(op, patterns))
        }
    }
}

/// The patterns of expressions behind these wildcards, or their first fault.
#[cycle(build_pattern)]
fn build_patterns<'a>(
    alloc: Global,
    sig: &Signature,
    exprs: &[Expr<'a>],
    before: &mut Vec<PatternWildcard<'a>>,
) -> Result<Patterns, TextError>
    ensures { Gives result
        (all_pattern_faults sig.now (map wildcard_view before.old.items) (trees (map expr_tree exprs.now)))
        (λ ps. (ps ≡ map (pattern_of sig.now) (map expr_tree exprs.now))
        × (map wildcard_view before.new.items
        ≡ map wildcard_view before.old.items ++ all_pattern_wildcards sig.now (trees (map expr_tree exprs.now)))) }
{
    let mut patterns = Patterns::with_room(alloc, exprs.len())?;
    for expr in exprs {
        let pattern = build_pattern(alloc, sig, expr, before)?;
        patterns.push(pattern)?;
    }
    Ok(patterns)
}

/// What a wildcard takes, where there is the kind that it names: without a kind this.
pub fn shape(sig: &Signature, wild: &Wildcard<'_>, plain: Shape) -> Result<Shape, TextError>
    ensures { Gives result (fault_if (kind_unknown sig.now wild.now.kind.now) UnknownKind wild.now.place)
        (λ s. wildcard s ≡ kind_shape sig.now wild.now.kind.now (wildcard plain)) }
{
    if wild.kind.is_empty() {
        return Ok(plain);
    }
    match sig.find_kind(wild.kind) {
        None => Err(error_at(TextKind::UnknownKind, wild.place)),
        Some(kind) => Ok(Shape::Kind(kind)),
    }
}

/// The variable of a wildcard, where it has a name.
pub fn variable(alloc: Global, wild: &Wildcard<'_>) -> Result<Option<Name>, TextError>
    ensures { Gives result [] (λ v. v ≡ variable_of wild.now.name.now) }
{
    if wild.name.is_empty() {
        return Ok(None);
    }
    let word = Word {
        text: wild.name,
        place: wild.place,
    };
    let name = new_name(alloc, word)?;
    Ok(Some(name))
}

/// The pattern of a whole expression as it is written, with its defaults in normal form: `pattern_of` of
/// `specs/Build.antt`.
///
/// - `Text`: the first fault of the expression as a pattern, by `whole_pattern_faults` of `specs/Checks.antt`.
/// - `Memory`: memory ran out.
pub fn whole_pattern(alloc: Global, sig: &Signature, expr: &Expr<'_>) -> Result<Pattern, TextError>
    ensures { Gives result (whole_pattern_faults sig.now (expr_tree expr.now))
        (λ p. pattern_tree p ≡ pattern_of sig.now (expr_tree expr.now)) }
{
    check_root(expr)?;
    let mut before = Vec::new(alloc);
    build_pattern(alloc, sig, expr, &mut before)
}

/// A whole pattern is no plus, star, counted or optional wildcard.
fn check_root(expr: &Expr<'_>) -> Result<(), TextError>
    ensures { Gives result (loose_faults (expr_tree expr.now)) (λ _. Unit {0}) }
{
    match *expr {
        Expr::Wild(wild) => {
            if marked_shape(wild.marks).is_loose() {
                return Err(error_at(TextKind::LooseSequence, wild.place));
            }
            Ok(())
        }
        Expr::Optional { wildcard, .. } => {
            Err(error_at(TextKind::LooseSequence, wildcard.place))
        }
        Expr::Counted {
            wildcard,
            count,
            open: is_open,
        } => {
            if counted_shape(count_of(*count), is_open).is_loose() {
                return Err(error_at(TextKind::LooseSequence, wildcard.place));
            }
            Ok(())
        }
        _ => Ok(()),
    }
}
