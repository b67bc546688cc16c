//! That what is listed is defined: laws, each as the contract of a function that does nothing.

ghost use Rattle.std.specs.Prelude.{◌≡◌, ℕ, Option};
ghost use Rattle.mp_io.specs.Devices.{Text};
ghost use Rattle.mp_text.specs.File.{FileTree};
ghost use Rattle.mp_text.specs.Sound.{IsSoundFile};
ghost use Rattle.mp_matches.specs.AllListed.{IsAllListed};
ghost use Rattle.mp_matches.specs.Computed.{listed};
ghost use Rattle.mp_matches.specs.Listed.{IsListed, Listed};

/// Of a file that was read, one thing is told of its matches at most, by `IsListed` of `specs/Listed.antt`.
pub fn what_is_listed_is_unique()
    ensures { (file : FileTree) (resume : Option Text) (limit : Option ℕ) (l k : Listed) → IsSoundFile file →
        IsListed file resume limit l → IsListed file resume limit k → l ≡ k }
{}

/// What `list_matches` tells is what is told by `IsListed`.
pub fn what_is_computed_is_listed()
    ensures { (file : FileTree) (resume : Option Text) (limit : Option ℕ) → IsSoundFile file →
        IsListed file resume limit (listed file resume limit) }
{}

/// Of the all-lists of a file one thing is told at most, by `IsAllListed` of `specs/AllListed.antt`.
pub fn what_is_listed_of_all_lists_is_unique()
    ensures { (file : FileTree) (limit : Option ℕ) (text other : Text) →
        IsAllListed file limit text → IsAllListed file limit other → text ≡ other }
{}
