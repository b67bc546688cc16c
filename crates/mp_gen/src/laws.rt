//! What a generated program accepts, and that it is valid, each as the contract of a function that does nothing.

ghost use Rattle.std.specs.Prelude.{◌≡◌, ℕ, suc, List, length, Some, None};
ghost use Rattle.mp_term.specs.Tree.{Tree};
ghost use Rattle.mp_term.specs.Signature.{Sig};
ghost use Rattle.mp_term.specs.Normal.{IsNormal};
ghost use Rattle.mp_pattern.specs.Admission.{Rule};
ghost use Rattle.mp_term.specs.Listing.{In};
ghost use Rattle.mp_pattern.specs.CondTree.{Cond};
ghost use Rattle.mp_pattern.specs.Variables.{variables};
ghost use Rattle.mp_print.specs.PrintedCond.{cond_text};
ghost use Rattle.mp_build.specs.AloneCondition.{IsCondOf};
ghost use Rattle.mp_program.specs.ProgramOf.{renamed_cond};
ghost use Rattle.mp_pattern.specs.Fits.{Table};
ghost use Rattle.mp_pattern.specs.SoundRule.{AreSoundRules};
ghost use Rattle.mp_walk.specs.Walkable.{IsWalkable};
ghost use Rattle.mp_walk.specs.WalkItems.{AreLeafItems};
ghost use Rattle.mp_many.specs.WalkItems.{AreWalkItems, rule_items};
ghost use Rattle.mp_program.specs.FormText.{program_text};
ghost use Rattle.mp_program.specs.Reading.{IsProgramOf, IsValid};
ghost use Rattle.mp_program.specs.RightForm.{IsShort};
ghost use Rattle.mp_gen.specs.Generated.{generated};
ghost use Rattle.mp_gen.specs.Printable.{ArePrintable};

use mp_many::{a_walk_over_the_tree_has_the_items_of_the_rules, the_tree_is_of_the_prefixes};
use mp_program_laws::a_renamed_condition_is_read;
use mp_round_trip::{printed_condition_is_read, printed_pattern_is_read, printed_term_is_read};

/// Law: the program of sound rules may be walked, and on a normal subject the instructions that accept, with the tables
/// that fit their paths, give exactly the pairs of a rule and a take table that fits, each once. It does nothing when
/// it runs.
pub fn a_generated_program_has_the_items_of_the_rules()
    ensures walkable { (sig : Sig) (rules : List Rule) → AreSoundRules sig rules
        → IsWalkable sig (generated sig rules).code }
    ensures items { (sig : Sig) (rules : List Rule) (t : Tree) (is : List (ℕ × Table)) → AreSoundRules sig rules
        → IsNormal sig t → AreLeafItems sig (generated sig rules).code t is
        → AreWalkItems sig rules t (rule_items (generated sig rules).code is) }
{
    the_tree_is_of_the_prefixes();
    a_walk_over_the_tree_has_the_items_of_the_rules();
}

/// Law: the program of sound rules that can be printed (`ArePrintable` of `specs/Printable.antt`) is valid, and the
/// text that it is printed as is read as it, where a `u32` can number its instructions with `begin` and `stop`. It does
/// nothing when it runs.
pub fn a_generated_program_is_valid()
    ensures again { (sig : Sig) (rules : List Rule) → AreSoundRules sig rules → ArePrintable sig rules
        → IsShort (suc (length (generated sig rules).code))
        → IsProgramOf sig (program_text sig (generated sig rules)) (generated sig rules) }
    ensures valid { (sig : Sig) (rules : List Rule) → AreSoundRules sig rules → ArePrintable sig rules
        → IsShort (suc (length (generated sig rules).code)) → IsValid sig (generated sig rules) }
    // Each condition, its variables called v0, v1 and so on, is read of its printed text.
    ensures conditions { (sig : Sig) (rules : List Rule) → AreSoundRules sig rules → ArePrintable sig rules
        → (r : Rule) (c : Cond) → In r rules → r.condition ≡ Some c
        → let d = renamed_cond (variables r.pattern) c in IsCondOf sig None (cond_text sig d) d }
{
    printed_term_is_read();
    printed_pattern_is_read();
    printed_condition_is_read();
    a_renamed_condition_is_read();
}
