//! What a variable's wildcard looks like.

ghost use Rattle.std.specs.Prelude.{◌≡◌, ◌≤◌, ◌++◌, map, OnOk, IfOk, option_map};
ghost use Rattle.mp_pattern.specs.Clash.{same_shape};
ghost use Rattle.mp_pattern.specs.NetTokens.{numbered};
ghost use Rattle.mp_pattern.specs.NetTokenView.{net_token};
ghost use Rattle.mp_pattern.specs.PatternTree.{is_sequence, is_loose};
ghost use Rattle.mp_pattern.specs.View.{wildcard, pattern_tree};
ghost use Rattle.mp_vm.specs.Looks.{look_wildcard, use_view, place_of, placed_in, token_wildcard, token_places};
ghost use Rattle.mp_vm.specs.Looks.{with_look, with_looks, where_true};

use mp_line::number_of_name;
use mp_pattern::{MAX_VARIABLES, NetToken, Pattern, Shape};
use mp_term::{KindId, Memory, Term};
use std::cmp::Ordering;

// A wildcard without its variable.
#[derive(Clone, Copy)]
pub(crate) enum Look<'a> {
    Dot,
    Kind(KindId),
    Plus,
    Star,
    Opt(&'a Term),
    Counted(u32, bool),
}

// An occurrence of a variable: the place of its name among `v0` to `v31`, or how many these are, and its wildcard.
#[derive(Clone, Copy)]
pub(crate) struct Use<'a> {
    place: usize,
    look: Look<'a>,
}

// The place of the name of a number among `v0` to `v31`, or how many these are.
fn place_of_number(number: u32) -> usize
    ensures place { result ≡ place_of (numbered number) }
    ensures most { result ≤ MAX_VARIABLES }
{
    let number = number as usize;
    if number < MAX_VARIABLES {
        number
    } else {
        MAX_VARIABLES
    }
}

// The place of a name among them, or how many they are.
pub(crate) fn place_of_name(name: &[u8]) -> usize
    ensures place { result ≡ place_of name.now }
    ensures most { result ≤ MAX_VARIABLES }
{
    match number_of_name(name) {
        Some(number) => place_of_number(number),
        None => MAX_VARIABLES,
    }
}

// What a shape looks like.
fn look_of(shape: &Shape) -> Look<'_>
    ensures { look_wildcard result ≡ wildcard shape.now }
{
    match shape {
        Shape::Dot => Look::Dot,
        Shape::Kind(kind) => Look::Kind(*kind),
        Shape::Plus => Look::Plus,
        Shape::Star => Look::Star,
        Shape::Opt(term) => Look::Opt(term),
        Shape::Counted { least, fixed } => Look::Counted(*least, *fixed),
    }
}

// The wildcards are of one class, kind, count and default.
fn is_same_look(a: Look<'_>, b: Look<'_>) -> bool
    ensures { result ≡ same_shape (look_wildcard a.entry) (look_wildcard b.entry) }
{
    match (a, b) {
        (Look::Dot, Look::Dot) | (Look::Plus, Look::Plus) | (Look::Star, Look::Star) => true,
        (Look::Kind(kind), Look::Kind(other)) => kind == other,
        (Look::Opt(term), Look::Opt(other)) => term.cmp(other) == Ordering::Equal,
        (Look::Counted(least, fixed), Look::Counted(count, exact)) => {
            least == count && fixed == exact
        }
        _ => false,
    }
}

// A plus, star or counted wildcard.
pub(crate) fn is_sequence(look: Look<'_>) -> bool
    ensures { result ≡ is_sequence (look_wildcard look.entry) }
{
    matches!(look, Look::Plus | Look::Star | Look::Counted(_, _))
}

// A plus, star, counted or optional wildcard.
pub(crate) fn is_loose(look: Look<'_>) -> bool
    ensures { result ≡ is_loose (look_wildcard look.entry) }
{
    matches!(
        look,
        Look::Plus | Look::Star | Look::Opt(_) | Look::Counted(_, _)
    )
}

// The wildcard of a token and the number of its variable, where it has one.
pub(crate) fn wildcard_of(token: &NetToken) -> Option<(Look<'_>, Option<u32>)>
    ensures { option_map (λ p. (look_wildcard p.0, p.1)) result ≡ token_wildcard (net_token token.now) }
{
    match token {
        NetToken::Dot(number) => Some((Look::Dot, *number)),
        NetToken::Kind(kind, number) => Some((Look::Kind(*kind), *number)),
        NetToken::Plus(number) => Some((Look::Plus, *number)),
        NetToken::Star(number) => Some((Look::Star, *number)),
        NetToken::Opt(number, term) => Some((Look::Opt(term), *number)),
        NetToken::Counted(least, fixed, number) => Some((Look::Counted(*least, *fixed), *number)),
        _ => None,
    }
}

// Adds the occurrences of variables in a pattern.
fn add_pattern_uses<'a>(pattern: &'a Pattern, uses: &mut Vec<Use<'a>>) -> Result<(), Memory>
    ensures { OnOk result (map use_view uses.new.items
        ≡ map use_view uses.old.items ++ placed_in (pattern_tree pattern.now)) }
{
    match pattern {
        Pattern::Sym(_) => Ok(()),
        Pattern::App(_, args) => {
            for arg in args.as_slice() {
                add_pattern_uses(arg, uses)?;
            }
            Ok(())
        }
        Pattern::Wild(_, None) => Ok(()),
        Pattern::Wild(shape, Some(name)) => {
            let place = place_of_name(name.bytes());
            let look = look_of(shape);
            uses.push(Use { place, look })?;
            Ok(())
        }
    }
}

// Adds the wildcard of a new variable, or answers false where it isn't the next one, where there would be too many, or
// where the variable has another wildcard.
fn add_look<'a>(occurrence: Use<'a>, looks: &mut Vec<Look<'a>>) -> Result<bool, Memory>
    ensures { IfOk result (λ b. with_look (map look_wildcard looks.old.items) (use_view occurrence.entry)
        ≡ where_true b (map look_wildcard looks.new.items)) }
{
    let place = occurrence.place;
    if place < looks.len() {
        return Ok(is_same_look(looks[place], occurrence.look));
    }
    if place == looks.len() && place < MAX_VARIABLES {
        looks.push(occurrence.look)?;
        return Ok(true);
    }
    Ok(false)
}

// Adds the wildcards of new variables, or answers false where one of the occurrences isn't right.
fn add_looks<'a>(uses: &[Use<'a>], looks: &mut Vec<Look<'a>>) -> Result<bool, Memory>
    ensures { IfOk result (λ b. with_looks (map look_wildcard looks.old.items) (map use_view uses.now)
        ≡ where_true b (map look_wildcard looks.new.items)) }
{
    for occurrence in uses {
        if !add_look(*occurrence, looks)? {
            return Ok(false);
        }
    }
    Ok(true)
}

// Adds the wildcards of the new variables of a token; the list has room for the occurrences of its variables.
pub(crate) fn add_token_looks<'a>(
    token: &'a NetToken,
    uses: &mut Vec<Use<'a>>,
    looks: &mut Vec<Look<'a>>,
) -> Result<bool, Memory>
    ensures { IfOk result (λ b. with_looks (map look_wildcard looks.old.items)
        (token_places (net_token token.now)) ≡ where_true b (map look_wildcard looks.new.items)) }
{
    match token {
        NetToken::Sym(_) | NetToken::Enter(_) | NetToken::Leave(_) => Ok(true),
        NetToken::Comm(pattern) => {
            uses.clear();
            add_pattern_uses(pattern, uses)?;
            add_looks(uses, looks)
        }
        _ => match wildcard_of(token) {
            Some((look, Some(number))) => add_look(
                Use {
                    place: place_of_number(number),
                    look,
                },
                looks,
            ),
            _ => Ok(true),
        },
    }
}
