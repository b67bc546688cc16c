//! The subpattern at a node.
ghost use Rattle.std.specs.Prelude.{◌≡◌, ◌+◌, None, map, length, option_map, slice_get};
ghost use Rattle.mp_pattern.specs.PatternTree.{patterns};
ghost use Rattle.mp_pattern.specs.Subpatterns.{subpatterns, all_subpatterns};
ghost use Rattle.mp_pattern.specs.View.{pattern_tree};

use mp_pattern::Pattern;
use std::slice;

// The subpattern at the node of that number among those of a list, in preorder from 0; where there are fewer, their
// number is taken away.
fn among<'p>(list: &'p [Pattern], left: &mut u32) -> Option<&'p Pattern>
    ensures found { option_map (λ p. pattern_tree p.now) result
        ≡ slice_get (all_subpatterns (patterns (map pattern_tree list.now))) left.old }
    ensures less { result ≡ None
        → left.old ≡ length (all_subpatterns (patterns (map pattern_tree list.now))) + left.new }
{
    match list {
        [] => None,
        [first, later @ ..] => {
            if *left == 0 {
                return Some(first);
            }
            *left -= 1;
            if let Pattern::App(_, args) = first {
                if let Some(found) = among(args.as_slice(), left) {
                    return Some(found);
                }
            }
            among(later, left)
        }
    }
}

// The subpattern at the node of that number, in preorder from 0.
pub(crate) fn subpattern(pattern: &Pattern, node: u32) -> Option<&Pattern>
    ensures { option_map (λ p. pattern_tree p.now) result ≡ slice_get (subpatterns (pattern_tree pattern.now)) node }
{
    let mut left = node;
    among(slice::from_ref(pattern), &mut left)
}
