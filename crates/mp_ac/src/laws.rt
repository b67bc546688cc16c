//! What the list of a commutative node has, as the contract of a function that does nothing.
ghost use Rattle.std.specs.Prelude.{ℕ, Bool, List};
ghost use Rattle.mp_term.specs.Signature.{Sig};
ghost use Rattle.mp_term.specs.Tree.{Tree};
ghost use Rattle.mp_pattern.specs.PatternTree.{Patterns};
ghost use Rattle.mp_pattern.specs.Value.{Subst};
ghost use Rattle.mp_ac.specs.Children.{AreArguments};
ghost use Rattle.mp_ac.specs.CommItems.{AreCommItems, IsTrail};
ghost use Rattle.mp_ac.specs.CommList.{comm_list};

/// The list of a commutative node over a trail has exactly the node's items, each once (`AreCommItems` of
/// `specs/CommItems.antt`): the tables of entries below it for which its children take the arguments with values of the
/// variables below it that merge with those of the trail, each with the values after it. The arguments are those of a
/// normal application in order, or one normal term, and the values of the trail are final.
pub fn a_commutative_node_has_the_items_of_its_list()
    ensures { (sig : Sig) (g : ℕ) (ps : Patterns) (args : List Tree) (owes : Bool) (s : Subst) →
        AreArguments sig g args → IsTrail sig s →
        AreCommItems sig g ps args owes s (comm_list sig g ps args owes s) }
{}
