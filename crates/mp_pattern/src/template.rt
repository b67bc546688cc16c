//! Templates: terms with variables, from which a rule makes its result.
ghost use Rattle.std.specs.Prelude.{◌≡◌, [], ◌∷◌, ◌++◌, length, map, slice_get, OnOk, OnErr, option_map};
ghost use Rattle.mp_pattern.specs.TemplateView.{template_tree};

use mp_term::{Memory, Name, OpId};
use std::alloc::Global;
use std::marker::Model;

/// A term with variables. Contracts see it as the tree `template_tree` of `specs/TemplateView.antt`;
/// `specs/Instance.antt` says what it becomes under a substitution.
#[cycle(template)]
#[derive(Drop)]
pub enum Template {
    /// A symbol.
    Sym(Name),
    /// An operation with its arguments.
    App(OpId, Templates),
    /// A variable by its name.
    Var(Name),
}

/// A list of templates, seen by contracts as the list of their trees.
#[cycle(template)]
#[derive(Drop)]
pub struct Templates {
    items: Vec<Template>,
}

impl Model for Templates {
    ghost use Rattle.std.specs.Prelude.{List, map};
    ghost use Rattle.std.specs.Coded.{coded_list};
    ghost use Rattle.mp_pattern.specs.TemplateTree as plain;
    ghost use Rattle.mp_pattern.specs.TemplateCode.{coded_template};

    ghost Value = { List plain.Template };

    ghost coded = { coded_list coded_template };

    ghost use Rattle.mp_pattern.specs.TemplateView.{template_tree};

    ghost view = { λ xs. map template_tree xs.items.items };

    ghost use Rattle.mp_pattern.specs.TemplateSize.{template_list_nodes};

    ghost size = { template_list_nodes };

    ghost use Rattle.mp_pattern.specs.TemplateFalls.{falls};

    ghost size_decreases = { λ a h. falls a.items.items };
}

impl Templates {
    /// The empty list. It takes no memory.
    pub fn new(alloc: Global) -> Self
        ensures { result ≡ [] }
    {
        Templates {
            items: Vec::new(alloc),
        }
    }

    /// Adds a template at the end. For want of memory it answers `Memory`, drops the template and leaves the list as it
    /// was.
    pub fn push(&mut self, item: Template) -> Result<(), Memory>
        ensures ok { OnOk result (self.new ≡ self.old ++ template_tree item ∷ []) }
        ensures err { OnErr result (self.new ≡ self.old) }
    {
        self.items.push(item)?;
        Ok(())
    }

    /// How many templates there are.
    pub fn len(&self) -> usize
        ensures { result ≡ length self.now }
    {
        self.items.len()
    }

    /// The template at the index, from 0. It is None exactly where the index isn't below the length.
    pub fn get(&self, index: usize) -> Option<&Template>
        ensures { slice_get self.now index ≡ option_map (λ x. template_tree x.now) result }
    {
        self.items.get(index)
    }

    /// The templates in order.
    pub fn as_slice(&self) -> &[Template]
        ensures { map template_tree result.now ≡ self.now }
    {
        &self.items
    }
}
