//! What a pattern asks, place by place.
ghost use Rattle.std.specs.Prelude.{◌≡◌, [], ◌∷◌, ◌++◌, map, OnOk};
ghost use Rattle.mp_pattern.specs.PatternTree.{patterns as plain_patterns};
ghost use Rattle.mp_pattern.specs.View.{pattern_tree};
ghost use Rattle.mp_net.specs.Net as plain;
ghost use Rattle.mp_net.specs.View.{mark_of};

use mp_pattern::Pattern;
use mp_term::{Memory, Name, OpId};

// What is asked of a place: a symbol, an operation with so many arguments, or nothing.
#[derive(Drop, Clone, Copy)]
pub(crate) enum Mark<'a> {
    Named(&'a Name),
    Entered(OpId, usize),
    Anything,
}

// The arguments below the place.
pub(crate) fn arity(mark: &Mark<'_>) -> usize
    ensures { result ≡ plain.arity (mark_of mark.now) }
{
    match mark {
        Mark::Entered(_, count) => *count,
        _ => 0,
    }
}

// Adds what the pattern asks, in preorder.
#[cycle(marks)]
pub(crate) fn push_marks<'a>(out: &mut Vec<Mark<'a>>, pattern: &'a Pattern) -> Result<(), Memory>
    ensures { OnOk result
        (map mark_of out.new.items ≡ map mark_of out.old.items ++ plain.marks (pattern_tree pattern.now)) }
{
    match pattern {
        Pattern::Sym(name) => push_mark(out, Mark::Named(name)),
        Pattern::App(op, args) => {
            push_mark(out, Mark::Entered(*op, args.len()))?;
            push_all_marks(out, args.as_slice())?;
            Ok(())
        }
        Pattern::Wild(_, _) => push_mark(out, Mark::Anything),
    }
}

// Adds what the patterns ask, one after the other.
#[cycle(marks)]
fn push_all_marks<'a>(out: &mut Vec<Mark<'a>>, patterns: &'a [Pattern]) -> Result<(), Memory>
    ensures { OnOk result
        (map mark_of out.new.items
        ≡ map mark_of out.old.items ++ plain.all_marks (plain_patterns (map pattern_tree patterns.now))) }
{
    match patterns {
        [] => Ok(()),
        [first, rest @ ..] => {
            push_marks(out, first)?;
            push_all_marks(out, rest)
        }
    }
}

// Puts a mark behind the others.
fn push_mark<'a>(out: &mut Vec<Mark<'a>>, mark: Mark<'a>) -> Result<(), Memory>
    ensures { OnOk result (map mark_of out.new.items ≡ map mark_of out.old.items ++ mark_of mark.entry ∷ []) }
{
    out.push(mark)?;
    Ok(())
}
