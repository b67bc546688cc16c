//! That programs are printed and read without loss, each fact as the contract of a function that does nothing.

ghost use Rattle.std.specs.Prelude.{◌≡◌, ℕ, List};
ghost use Rattle.mp_term.specs.Signature.{Sig};
ghost use Rattle.mp_program.specs.declared.format.Format.TheVariants.{Two};
ghost use Rattle.mp_program.specs.Program.{Program};
ghost use Rattle.mp_program.specs.FormText.{program_text};
ghost use Rattle.mp_program.specs.Reading.{IsProgramOf};

/// Law: in format 2 a program has one spelling. Bytes that are it, by `IsProgramOf` of `specs/Reading.antt`, are the
/// text that it is printed as, and so that text is the program again. It does nothing when it runs.
pub fn a_program_has_one_spelling()
    ensures only { (sig : Sig) (bytes : List ℕ) (p : Program) (h : IsProgramOf sig bytes p) → h.form.format ≡ Two
        → bytes ≡ program_text sig p }
    ensures again { (sig : Sig) (bytes : List ℕ) (p : Program) (h : IsProgramOf sig bytes p) → h.form.format ≡ Two
        → IsProgramOf sig (program_text sig p) p }
{}
