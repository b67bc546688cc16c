//! The laws of whole files: what is printed of a file is read again.

ghost use Rattle.std.specs.Prelude.{◌≡◌, ℕ, true, List, map};
ghost use Rattle.std.specs.List.{AllByRecursion};
ghost use Rattle.mp_term.specs.Names.{is_name};
ghost use Rattle.mp_parser.specs.declared.limits.TheConstants.{MAX_OPEN};
ghost use Rattle.mp_parser.specs.Syntax.{Statement, IsSyntaxOf, AreStatements, StatementsHaveNames};
ghost use Rattle.mp_syntax.specs.Printed.{unplaced};
ghost use Rattle.mp_text.specs.File.{FileTree};
ghost use Rattle.mp_text.specs.PrintedFile.{file_text};
ghost use Rattle.mp_text.specs.Reading.{IsFileOf};
ghost use Rattle.mp_round_trip.specs.OpenBrackets.{IsShallowIf};
ghost use Rattle.mp_round_trip.specs.Readable.{IsSpelledSignature};
ghost use Rattle.mp_round_trip.specs.Spelled.{file_spelling};

/// Law: the text that a file is printed as, `file_text` of mp_text's `specs/PrintedFile.antt`, is read as the
/// statements of the file, `file_spelling` of `specs/Spelled.antt`, apart from the places where they stand.
///
/// It holds for a file whose statements the grammar has: each word is a word of 1 to 64 letters and digits, each sign a
/// sign, each kind has a member, each edit statement an edit, each wildcard is one that is read, and at most 100
/// brackets stand open at once. It does nothing when it runs.
pub fn printed_file_is_its_statements()
    ensures { (file : FileTree) → StatementsHaveNames (file_spelling file) → AreStatements MAX_OPEN (file_spelling file)
        → (read : List Statement) × IsSyntaxOf (file_text file) read
        × (map unplaced read ≡ map unplaced (file_spelling file)) }
{}

/// Law: in a file that some bytes are, `IsFileOf` of mp_text's `specs/Reading.antt`, each name of the signature is a
/// name and each sign a sign (`IsSpelledSignature` of `specs/Readable.antt`).
///
/// It does nothing when it runs.
pub fn signatures_of_files_are_spelled()
    ensures { (bytes : List ℕ) (file : FileTree) → IsFileOf bytes file → IsSpelledSignature file.sig }
{}

/// Law: in a file that some bytes are, `IsFileOf` of mp_text's `specs/Reading.antt`, the members of the kinds are
/// names, and at most 100 brackets are open at once in the condition of a rule.
///
/// It does nothing when it runs.
pub fn members_and_conditions_of_files_are_spelled()
    ensures members { (bytes : List ℕ) (file : FileTree) → IsFileOf bytes file
        → AllByRecursion (λ k. AllByRecursion (λ m. is_name m ≡ true) k.members) file.sig.kinds }
    ensures shallow { (bytes : List ℕ) (file : FileTree) → IsFileOf bytes file
        → AllByRecursion (λ r. IsShallowIf r.condition) file.rules }
{}

/// Law: the text that a file is printed as, `file_text` of mp_text's `specs/PrintedFile.antt`, is read as that file,
/// for every file that some bytes are, `IsFileOf` of its `specs/Reading.antt`.
///
/// It does nothing when it runs.
pub fn printed_file_is_read()
    ensures { (bytes : List ℕ) (file : FileTree) → IsFileOf bytes file → IsFileOf (file_text file) file }
{}
