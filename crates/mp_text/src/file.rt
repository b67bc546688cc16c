//! Rule files: a signature with rules, subjects and edit statements.

ghost use Rattle.std.specs.Prelude.{◌≡◌, [], ◌∷◌, ◌++◌, length, map, slice_get, OnOk, OnErr, option_map};
ghost use Rattle.mp_text.specs.File.{subject_tree};

use mp_pattern::Rules;
use mp_term::{Edits, Memory, Name, Signature, Term};
use std::alloc::Global;
use std::marker::Model;

/// A named term.
///
/// As plain data it is a `Subject` of `specs/Subject.antt`, by `subject_tree` of `specs/File.antt`.
#[derive(Drop)]
pub struct Subject {
    /// The name of the subject.
    pub name: Name,
    /// Its term.
    pub term: Term,
}

/// A list of subjects, seen by contracts as the list of their records. A subject's number is its index, from 0.
#[derive(Drop)]
pub struct Subjects {
    items: Vec<Subject>,
}

impl Model for Subjects {
    ghost use Rattle.std.specs.Prelude.{List, map};
    ghost use Rattle.std.specs.Coded.{coded_list};
    ghost use Rattle.mp_text.specs.Subject as plain;

    ghost Value = { List plain.Subject };

    ghost coded = { coded_list plain.coded_subject };

    ghost use Rattle.mp_text.specs.File.{subject_tree};

    ghost view = { λ ss. map subject_tree ss.items.items };
}

impl Subjects {
    /// The empty list. It takes no memory.
    pub fn new(alloc: Global) -> Self
        ensures { result ≡ [] }
    {
        Subjects {
            items: Vec::new(alloc),
        }
    }

    /// The empty list, with room for so many subjects at once where memory has it.
    pub(crate) fn with_room(alloc: Global, room: usize) -> Self
        ensures { result ≡ [] }
    {
        match Vec::with_capacity(alloc, room) {
            Ok(items) => Subjects { items },
            Err(_) => Subjects::new(alloc),
        }
    }

    /// Adds a subject at the end. For want of memory it answers `Memory`, drops the subject and leaves the list as it
    /// was.
    pub fn push(&mut self, item: Subject) -> Result<(), Memory>
        ensures ok { OnOk result (self.new ≡ self.old ++ subject_tree item ∷ []) }
        ensures err { OnErr result (self.new ≡ self.old) }
    {
        self.items.push(item)?;
        Ok(())
    }

    /// How many subjects there are.
    pub fn len(&self) -> usize
        ensures { result ≡ length self.now }
    {
        self.items.len()
    }

    /// The subject at an index, from 0. It is None exactly where the index isn't below the length.
    pub fn get(&self, index: usize) -> Option<&Subject>
        ensures { slice_get self.now index ≡ option_map (λ s. subject_tree s.now) result }
    {
        self.items.get(index)
    }

    /// The subjects in order.
    pub fn as_slice(&self) -> &[Subject]
        ensures { map subject_tree result.now ≡ self.now }
    {
        &self.items
    }
}

/// An edit statement: the edits of a subject. Contracts see its fields.
#[derive(Drop)]
pub struct EditSet {
    /// The number of the subject, from 0.
    pub subject: u32,
    /// The edits, in order.
    pub edits: Edits,
}

/// A list of edit statements, seen by contracts as the list of them.
#[derive(Drop)]
pub struct EditSets {
    items: Vec<EditSet>,
}

impl Model for EditSets {
    ghost use Rattle.std.specs.Prelude.{List};
    ghost use Rattle.std.specs.Coded.{coded_list};
    ghost use Rattle.mp_text.specs.declared.file.EditSet.{EditSet};
    ghost use Rattle.mp_text.specs.EditSetCode.{coded_edit_set};

    ghost Value = { List EditSet };

    ghost coded = { coded_list coded_edit_set };

    ghost view = { λ es. es.items.items };
}

impl EditSets {
    /// The empty list. It takes no memory.
    pub fn new(alloc: Global) -> Self
        ensures { result ≡ [] }
    {
        EditSets {
            items: Vec::new(alloc),
        }
    }

    /// Adds an edit statement at the end. For want of memory it answers `Memory`, drops the statement and leaves the
    /// list as it was.
    pub fn push(&mut self, item: EditSet) -> Result<(), Memory>
        ensures ok { OnOk result (self.new ≡ self.old ++ item ∷ []) }
        ensures err { OnErr result (self.new ≡ self.old) }
    {
        self.items.push(item)?;
        Ok(())
    }

    /// How many edit statements there are.
    pub fn len(&self) -> usize
        ensures { result ≡ length self.now }
    {
        self.items.len()
    }

    /// The edit statement at an index, from 0. It is None exactly where the index isn't below the length.
    pub fn get(&self, index: usize) -> Option<&EditSet>
        ensures { slice_get self.now index ≡ option_map (λ e. e.now) result }
    {
        self.items.get(index)
    }

    /// The edit statements in order.
    pub fn as_slice(&self) -> &[EditSet]
        ensures { result.now ≡ self.now }
    {
        &self.items
    }
}

/// What a rule file holds.
///
/// As plain data it is a `FileTree`, by `file_tree`, both of `specs/File.antt`.
#[derive(Drop)]
pub struct File {
    /// The operations and kinds.
    pub sig: Signature,
    /// The rules, in order.
    pub rules: Rules,
    /// The subjects, in order.
    pub subjects: Subjects,
    /// The edit statements, in order.
    pub edits: EditSets,
}
