//! That bytes are one program at most, each fact as the contract of a function that does nothing.

ghost use Rattle.std.specs.Prelude.{◌≡◌, ◌⊎◌, List, ℕ};
ghost use Rattle.mp_term.specs.Signature.{Sig, IsSignature};
ghost use Rattle.mp_program.specs.declared.fault.ProgramError.{ProgramError};
ghost use Rattle.mp_program.specs.Form.{Form};
ghost use Rattle.mp_program.specs.Program.{Program};
ghost use Rattle.mp_program.specs.Reading.{IsFormOf, IsProgramOf, IsProgramFaultOf};

/// Law: over a signature bytes are one program at most, or they have one fault at most, and never both. So what
/// `read_program` answers is settled by the bytes alone.
///
/// It does nothing when it runs.
pub fn a_text_is_one_program_at_most()
    // They are the lines of one form at most.
    ensures form { (sig : Sig) (bytes : List ℕ) (f g : Form) → IsSignature sig → IsFormOf sig bytes f
        → IsFormOf sig bytes g → f ≡ g }
    // They are one program at most.
    ensures program { (sig : Sig) (bytes : List ℕ) (p q : Program) → IsSignature sig → IsProgramOf sig bytes p
        → IsProgramOf sig bytes q → p ≡ q }
    // A program has no fault.
    ensures faultless { (sig : Sig) (bytes : List ℕ) (p : Program) (e : ProgramError) → IsSignature sig
        → IsProgramOf sig bytes p → IsProgramFaultOf sig bytes e → ⊥ }
    // They have one fault at most.
    ensures fault { (sig : Sig) (bytes : List ℕ) (e f : ProgramError) → IsSignature sig
        → IsProgramFaultOf sig bytes e → IsProgramFaultOf sig bytes f → e ≡ f }
{}

/// Law: over a signature bytes are a program, or they have a fault.
///
/// It does nothing when it runs.
pub fn a_text_is_a_program_or_has_a_fault()
    ensures { (sig : Sig) (bytes : List ℕ) → IsSignature sig
        → ((p : Program) × IsProgramOf sig bytes p) ⊎ ((f : ProgramError) × IsProgramFaultOf sig bytes f) }
{}
