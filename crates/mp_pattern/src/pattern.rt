//! Patterns: terms with wildcards.
ghost use Rattle.std.specs.Prelude.{◌≡◌, [], ◌∷◌, ◌++◌, length, map, slice_get, OnOk, OnErr, IfOk, option_map};
ghost use Rattle.mp_pattern.specs.Fits.{no_sequence};
ghost use Rattle.mp_pattern.specs.PatternTree.{meets_count, is_sequence, least, most, is_loose, patterns};
ghost use Rattle.mp_pattern.specs.View.{wildcard, pattern_tree};

use mp_term::{KindId, Memory, Name, OpId, Term};
use std::alloc::Global;
use std::marker::Model;

/// What a wildcard takes of the arguments around it. `WildTakes` of `specs/Fits.antt` says it for each value of its
/// variable.
#[derive(Drop)]
pub enum Shape {
    /// One argument, or under an associative operation the arguments that its value contributes.
    Dot,
    /// One symbol of the kind.
    Kind(KindId),
    /// One argument or more.
    Plus,
    /// Any number of arguments.
    Star,
    /// As a dot does, or nothing, and then its variable has this default.
    Opt(Term),
    /// `least` arguments where the count is fixed, and `least` or more where it is open. In a sound rule `least` is
    /// from 2 to `MAX_COUNT`; what counts fewer is a dot, a plus or a star.
    Counted { least: u32, fixed: bool },
}

impl Shape {
    /// Its variable stands for a list of terms: a plus, star or counted wildcard.
    pub fn is_sequence(&self) -> bool
        ensures { result ≡ is_sequence (wildcard self.now) }
    {
        matches!(self, Shape::Plus | Shape::Star | Shape::Counted { .. })
    }

    /// How many arguments it takes at least.
    pub fn least(&self) -> usize
        ensures { result ≡ least (wildcard self.now) }
    {
        match self {
            Shape::Star | Shape::Opt(_) => 0,
            Shape::Dot | Shape::Kind(_) | Shape::Plus => 1,
            Shape::Counted { least, .. } => *least as usize,
        }
    }

    /// How many arguments it takes at most, where the operation above is associative or isn't. None: there is no bound.
    pub fn most(&self, assoc: bool) -> Option<usize>
        ensures { result ≡ most assoc (wildcard self.now) }
    {
        match self {
            Shape::Plus | Shape::Star => None,
            Shape::Counted { least, fixed } => { if *fixed { Some(*least as usize) } else { None } }
            Shape::Dot | Shape::Opt(_) if assoc => None,
            Shape::Dot | Shape::Opt(_) | Shape::Kind(_) => Some(1),
        }
    }

    /// It may take no argument, or as a sequence several.
    pub fn is_loose(&self) -> bool
        ensures { result ≡ is_loose (wildcard self.now) }
    {
        self.is_sequence() || self.least() == 0
    }
}

/// So many terms meet the count of a counted wildcard (`meets_count` of `specs/PatternTree.antt`): they are as many
/// where it is fixed, and as many or more where it is open. It takes no memory.
pub fn meets_count(count: u32, fixed: bool, terms: usize) -> bool
    ensures { result ≡ meets_count count fixed terms }
{
    let count = count as usize;
    if fixed {
        terms == count
    } else {
        terms >= count
    }
}

/// A term with wildcards. Contracts see it as the tree `pattern_tree` of `specs/View.antt`; `specs/Fits.antt` says what
/// it matches.
#[cycle(pattern)]
#[derive(Drop)]
pub enum Pattern {
    /// A symbol.
    Sym(Name),
    /// An operation with its arguments.
    App(OpId, Patterns),
    /// A wildcard with the name of its variable; without a name it binds nothing.
    Wild(Shape, Option<Name>),
}

/// A list of patterns, seen by contracts as the list of their trees.
#[cycle(pattern)]
#[derive(Drop)]
pub struct Patterns {
    pub(crate) items: Vec<Pattern>,
}

impl Model for Patterns {
    ghost use Rattle.std.specs.Prelude.{List, map};
    ghost use Rattle.std.specs.Coded.{coded_list};
    ghost use Rattle.mp_pattern.specs.PatternTree as plain;
    ghost use Rattle.mp_pattern.specs.Code.{coded_pattern};

    ghost Value = { List plain.Pattern };

    ghost coded = { coded_list coded_pattern };

    ghost use Rattle.mp_pattern.specs.View.{pattern_tree};

    ghost view = { λ ps. map pattern_tree ps.items.items };

    ghost use Rattle.mp_pattern.specs.Size.{list_nodes};

    ghost size = { list_nodes };

    ghost use Rattle.mp_pattern.specs.Falls.{falls};

    ghost size_decreases = { λ a h. falls a.items.items };
}

impl Patterns {
    /// The empty list. It takes no memory.
    pub fn new(alloc: Global) -> Self
        ensures { result ≡ [] }
    {
        Patterns {
            items: Vec::new(alloc),
        }
    }

    /// The empty list, with room for so many patterns at once. For want of memory it answers `Memory`.
    pub fn with_room(alloc: Global, room: usize) -> Result<Self, Memory>
        ensures { IfOk result (λ ps. ps ≡ []) }
    {
        let items = Vec::with_capacity(alloc, room)?;
        Ok(Patterns { items })
    }

    /// Adds a pattern at the end. For want of memory it answers `Memory`, drops the pattern and leaves the list as it
    /// was.
    pub fn push(&mut self, item: Pattern) -> Result<(), Memory>
        ensures ok { OnOk result (self.new ≡ self.old ++ pattern_tree item ∷ []) }
        ensures err { OnErr result (self.new ≡ self.old) }
    {
        self.items.push(item)?;
        Ok(())
    }

    /// How many patterns there are.
    pub fn len(&self) -> usize
        ensures { result ≡ length self.now }
    {
        self.items.len()
    }

    /// The pattern at the index, from 0. It is None exactly where the index isn't below the length.
    pub fn get(&self, index: usize) -> Option<&Pattern>
        ensures { slice_get self.now index ≡ option_map (λ p. pattern_tree p.now) result }
    {
        self.items.get(index)
    }

    /// The patterns in order.
    pub fn as_slice(&self) -> &[Pattern]
        ensures { map pattern_tree result.now ≡ self.now }
    {
        &self.items
    }
}

/// No child is a plus, star or counted wildcard (`no_sequence` of `specs/Fits.antt`). It takes no memory.
pub fn no_sequence(children: &[Pattern]) -> bool
    ensures { result ≡ no_sequence (patterns (map pattern_tree children.now)) }
{
    for child in children {
        if let Pattern::Wild(shape, _) = child
            && shape.is_sequence()
        {
            return false;
        }
    }
    true
}
