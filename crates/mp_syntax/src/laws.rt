//! Laws of beginnings and of first faults. Nothing here does anything when it runs.

ghost use Rattle.std.specs.Prelude.{◌≡◌, ◌⊎◌, ◌++◌, ℕ, List};
ghost use Rattle.mp_parser.specs.declared.fault.Fault.{Fault};
ghost use Rattle.mp_parser.specs.Tokens.{Placed};
ghost use Rattle.mp_parser.specs.Syntax.{Tree, Condition, Statement, Expected, AllMatch, IsExprOf, IsConditionOf};
ghost use Rattle.mp_parser.specs.Syntax.{IsSyntaxOf};
ghost use Rattle.mp_syntax.specs.Begins.{Text, OfFile, OfExpr, OfCondition, MatchFront, IsBehind};
ghost use Rattle.mp_syntax.specs.FirstFault.{IsFirstFault};

/// Law: bytes have at most one first fault as a text of a sort.
pub fn first_faults_are_unique()
    ensures { (sort : Text) (bytes : List ℕ) (f g : Fault) → IsFirstFault sort bytes f → IsFirstFault sort bytes g
        → f ≡ g }
{}

/// Law: bytes are a file, an expression or a condition, or they have a first fault as one.
pub fn first_faults_are_total()
    ensures file { (bytes : List ℕ)
        → ((file : List Statement) × IsSyntaxOf bytes file) ⊎ ((f : Fault) × IsFirstFault OfFile bytes f) }
    ensures expression { (bytes : List ℕ)
        → ((t : Tree) × IsExprOf bytes t) ⊎ ((f : Fault) × IsFirstFault OfExpr bytes f) }
    ensures condition { (bytes : List ℕ)
        → ((c : Condition) × IsConditionOf bytes c) ⊎ ((f : Fault) × IsFirstFault OfCondition bytes f) }
{}

/// Law: bytes that are a file, an expression or a condition have no first fault as one.
pub fn texts_have_no_fault()
    ensures file { (bytes : List ℕ) (file : List Statement) (f : Fault) → IsSyntaxOf bytes file
        → IsFirstFault OfFile bytes f → ⊥ }
    ensures expression { (bytes : List ℕ) (t : Tree) (f : Fault) → IsExprOf bytes t → IsFirstFault OfExpr bytes f → ⊥ }
    ensures condition { (bytes : List ℕ) (c : Condition) (f : Fault) → IsConditionOf bytes c
        → IsFirstFault OfCondition bytes f → ⊥ }
{}

/// Law: the front of two parts in a row is a front of the first part, or the whole first part and a front of the
/// second.
pub fn fronts_of_parts()
    ensures cases { (ts : List Placed) (a b : List Expected) → MatchFront ts (a ++ b)
        → MatchFront ts a ⊎ IsBehind ts a b }
    ensures first { (ts : List Placed) (a b : List Expected) → MatchFront ts a → MatchFront ts (a ++ b) }
    ensures behind { (front back : List Placed) (a b : List Expected) → AllMatch front a → MatchFront back b
        → MatchFront (front ++ back) (a ++ b) }
{}
