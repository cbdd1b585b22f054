//! What holds of all files of boots.

ghost use Rattle.std.specs.Prelude.{◌≡◌, ◌⊎◌, ◌≤◌, ◌<◌, ◌+◌, ◌++◌, ◌∷◌, [], ℕ, List, Option, Some, length, take, decimal, All};
ghost use Rattle.pool_store.specs.declared.boots.Boots.{Boots};
ghost use Rattle.pool_store.specs.declared.error.BootError.{BootError};
ghost use Rattle.pool_store.specs.Boots.{SaysBoots, boot_lines, next_boot, IsBoot};
ghost use Rattle.pool_store.specs.BadNumbers.{IsRefused};
ghost use Rattle.pool_outer.specs.Files.{bytes_in, Contents, Leaves, Lengths};
ghost use Rattle.pool_store.specs.Moments.{IsReached};
ghost use Rattle.pool_store.specs.Openings.{AreOpened, AreWholeLines};

/// A file says one thing.
pub fn file_says_one_thing()
    ensures { (bytes : List ℕ) (one other : Boots)
        → SaysBoots bytes one → SaysBoots bytes other → one ≡ other }
{}

/// A file of boots is not refused.
pub fn files_of_boots_are_not_refused()
    ensures { (bytes : List ℕ) (boots : Boots) (error : BootError)
        → SaysBoots bytes boots → ¬ IsRefused bytes error }
{}

/// The next boot has a number of its own, greater than each in the file.
pub fn next_boot_is_above_all()
    ensures { (bytes : List ℕ) (boots : Boots) (next : ℕ) (says : SaysBoots bytes boots)
        → next_boot boots.largest ≡ Some next
        → IsBoot next × All (λ n. n < next) says.numbers }
{}

/// Behind the whole lines of a file the next boot's line makes a file that says that boot.
pub fn next_line_is_read()
    ensures { (bytes : List ℕ) (boots : Boots) (next : ℕ) → SaysBoots bytes boots
        → next_boot boots.largest ≡ Some next
        → SaysBoots (take boots.whole bytes ++ boot_lines (next ∷ []))
        (record { largest = Some next; whole = boots.whole + (length (decimal next) + 1) }) }
{}

/// A part of that line, whatever a stop leaves of it, says nothing.
pub fn torn_line_says_nothing()
    ensures { (bytes : List ℕ) (boots : Boots) (next count : ℕ) → SaysBoots bytes boots
        → next_boot boots.largest ≡ Some next → count ≤ length (decimal next)
        → SaysBoots (take boots.whole bytes ++ take count (boot_lines (next ∷ []))) boots }
{}

/// What an opening leaves of a file says what the file said.
pub fn whole_lines_say_the_same()
    ensures { (bytes lines : List ℕ) (boots : Boots)
        → SaysBoots bytes boots → AreWholeLines bytes lines → SaysBoots lines boots }
{}

/// While the next boot's line is written behind an opened file, a stop leaves a file that says what
/// it said, or that boot as the largest.
pub fn no_boot_is_lost_while_the_next_is_written()
    ensures { (file opened : Option (List ℕ)) (solid next : ℕ) (boots : Boots) (image : List ℕ)
        → AreOpened file opened solid boots → next_boot boots.largest ≡ Some next
        → IsReached solid (bytes_in opened) (boot_lines (next ∷ [])) image
        → SaysBoots image boots
        ⊎ SaysBoots image (record { largest = Some next; whole = length image }) }
{}

/// Once each image of an opened file has the next boot's line behind it, that boot is the largest
/// in each.
pub fn new_boot_is_the_largest_in_each_image()
    ensures { (file opened : Option (List ℕ)) (solid next : ℕ) (boots : Boots)
        (files : Contents) (solids : Lengths) (name : List ℕ)
        → AreOpened file opened solid boots → next_boot boots.largest ≡ Some next
        → ((image : List ℕ) → Leaves files solids name image
        → image ≡ bytes_in opened ++ boot_lines (next ∷ []))
        → (image : List ℕ) → Leaves files solids name image
        → SaysBoots image (record { largest = Some next; whole = length image }) }
{}
