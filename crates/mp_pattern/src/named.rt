//! Whether each wildcard has a name.
ghost use Rattle.std.specs.Prelude.{◌≡◌};
ghost use Rattle.mp_pattern.specs.View.{pattern_tree};
ghost use Rattle.mp_pattern.specs.Instance.{is_fully_named};

use crate::pattern::Pattern;

/// Each wildcard of the pattern has a name (`is_fully_named` of `specs/Instance.antt`). It takes no memory.
pub fn is_fully_named(pattern: &Pattern) -> bool
    ensures { result ≡ is_fully_named (pattern_tree pattern.now) }
{
    match pattern {
        Pattern::Sym(_) => true,
        Pattern::App(_, args) => {
            for arg in &args.items {
                if !is_fully_named(arg) {
                    return false;
                }
            }
            true
        }
        Pattern::Wild(_, None) => false,
        Pattern::Wild(_, Some(_)) => true,
    }
}
