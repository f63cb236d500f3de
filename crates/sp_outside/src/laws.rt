//! What follows from the definitions of files: laws, on functions that do nothing.
ghost use Rattle.std.specs.Prelude.{◌≡◌, ◌≢◌, ◌↔◌, ℕ, List, Some, None, Contains};
ghost use Rattle.std.specs.List.{All};
ghost use Rattle.std.specs.declared.cmp.Ordering.TheVariants.{Less};
ghost use Rattle.sp_base.specs.Names.{by_name};
ghost use Rattle.sp_base.specs.Texts.{Text};
ghost use Rattle.sp_outside.specs.FileNames.{IsNameAfter, ListedNamesHaveFewerLeft, ListsHoldWhatTheyReached};
ghost use Rattle.sp_outside.specs.Files.{Files, IsEndlessWalk, IsListing, file_at, names_after, with_file, without_file};

/// A file is what was written last under its name, and no other name's file changes with it.
pub fn files_have_names()
    ensures written { (files : Files) (name bytes : List ℕ) → file_at (with_file files name bytes) name ≡ Some bytes }
    ensures beside { (files : Files) (name other bytes : List ℕ) → other ≢ name → file_at (with_file files name bytes) other ≡ file_at files other }
    ensures removed { (files : Files) (name : List ℕ) → file_at (without_file files name) name ≡ None }
    ensures left { (files : Files) (name other : List ℕ) → other ≢ name → file_at (without_file files name) other ≡ file_at files other }
{}

/// A walk over the names of a disk ends, from whichever name of a list it goes on: the names that are listed after a name are greater, and
/// names of at most `LONGEST_FILE_NAME` bytes can't rise without an end.
pub fn walks_end()
    ensures later { (prefix after : List ℕ) (most : ℕ) (names : List Text) → IsListing prefix after most names → All (λ name. by_name after name ≡ Less) names }
    ensures ends { (prefix : List ℕ) (most : ℕ) (after : ℕ → Text) (lists : ℕ → List Text) → IsEndlessWalk prefix most after lists → ⊥ }
{}

/// A walk comes nearer to its end with each list: of a name that is listed after another, fewer are left than of that one.
pub fn fewer_names_follow()
    ensures { ListedNamesHaveFewerLeft }
{}

/// The names that are listed after a name are exactly the names of files that are after it and begin with the prefix.
pub fn names_are_of_files()
    ensures { (files : Files) (prefix after name : List ℕ) → Contains (names_after files prefix after) name ↔ IsNameAfter files prefix after name }
{}

/// A list leaves out no name that it came to.
pub fn nothing_is_passed_over()
    ensures { ListsHoldWhatTheyReached }
{}
