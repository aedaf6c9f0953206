//! The call that the program makes.
ghost use Rattle.std.specs.Prelude.{◌≡◌, ℕ, List, codes, map};
ghost use Rattle.std.specs.String.{string_bytes};
ghost use Rattle.grade_io.specs.Devices.{devices};
ghost use Rattle.grade_io.specs.Kept.{FilesLeft};
ghost use Rattle.grade_io.specs.Words.{refusal_line};
ghost use Rattle.mpy_tree.specs.declared.refusal.Refusal.{Refusal as AnyRefusal};
ghost use Rattle.mpy_tree.specs.Refusals.{refusal_text};
ghost use Rattle.source_files.specs.Files.{sources_of};
ghost use Rattle.source_files.specs.Texts.{IsTooLong, Tells};
ghost use Rattle.class_text.specs.Listings.{Lists, StopsAt};
ghost use Rattle.class_run.specs.Claims.{AreTold, IsDone, IsSaid};
ghost use Rattle.class_run.specs.Classes.{Shared, files_of, word_of};
ghost use Rattle.class_run.specs.Ends.{CallsInOrder, Ends};
ghost use Rattle.class_run.specs.Says.{Says};
ghost use Rattle.class_core.specs.Gradings.{class_of};
ghost use Rattle.class_core.specs.Words.{AskNothing, Asks, ClassWords, usage_text};

use crate::reading::read_words;
use class_run::{ClassStatus, run_class, say};
use grade_io::{Shelf, Sink};
use std::alloc::Global;

const USAGE: &str = "usage: mpyclass BOUNDS REF RULES LIST BUDGET\n";

/// Answers the words that follow the program's name: the class is graded whose files they name,
/// each submission with the whole budget, and one report of all is written. Nothing is stored.
pub fn class_top<S: Shelf, K: Sink>(
    alloc: Global,
    words: &Vec<String>,
    shelf: &mut S,
    out: &mut K,
) -> ClassStatus
    // What the status means, and what stands in the output: one entry for each listed file, in
    // order, which `grade` may answer for the texts of this file and of the first three words.
    ensures ends { (w : ClassWords) → Asks (map string_bytes words.now.items) w
        → Ends (class_of w) (devices (S.seen shelf.old) (K.seen out.old))
        (devices (S.seen shelf.new) (K.seen out.new)) result }
    // The fetches of the four files and of the listed ones, in order, each once, up to some point.
    ensures calls { (w : ClassWords) → Asks (map string_bytes words.now.items) w
        → CallsInOrder (class_of w).files (S.seen shelf.old) (S.seen shelf.new) }
    ensures left { FilesLeft (S.seen shelf.old) (S.seen shelf.new) }
    // The usage is answered exactly for words that ask for no class, and the shelf isn't touched.
    ensures usage { result ≡ ClassStatus.Usage → AskNothing (map string_bytes words.now.items) }
    ensures no_form { AskNothing (map string_bytes words.now.items)
        → Says usage_text ClassStatus.Usage (K.seen out.old) (K.seen out.new) result }
    ensures untouched { AskNothing (map string_bytes words.now.items)
        → S.seen shelf.new ≡ S.seen shelf.old }
    // A class whose list is of its form has its entries, unless a fetch of the four files or a put
    // failed or memory lacked.
    ensures done { (w : ClassWords) (t : Shared) (list : List ℕ) (names : List (List ℕ))
        → Asks (map string_bytes words.now.items) w
        → AreTold (class_of w).files (S.seen shelf.old) t list → Lists list names
        → IsDone (class_of w) t names (devices (S.seen shelf.old) (K.seen out.old))
        (devices (S.seen shelf.new) (K.seen out.new)) result }
    // A list that isn't is refused at its first such line, and a file that is too long.
    ensures no_list { (w : ClassWords) (t : Shared) (list : List ℕ) (line : ℕ)
        → Asks (map string_bytes words.now.items) w
        → AreTold (class_of w).files (S.seen shelf.old) t list → StopsAt list line
        → IsSaid (refusal_line w.list line (codes "Listing")) ClassStatus.Refused
        (devices (S.seen shelf.old) (K.seen out.old))
        (devices (S.seen shelf.new) (K.seen out.new)) result }
    ensures long { (w : ClassWords) (ts : List (List ℕ)) (r : AnyRefusal)
        → Asks (map string_bytes words.now.items) w
        → Tells (S.seen shelf.old) (files_of (class_of w).files) ts
        → IsTooLong (sources_of (files_of (class_of w).files)) ts r
        → IsSaid (refusal_text (word_of (class_of w).files r.source) r) ClassStatus.Refused
        (devices (S.seen shelf.old) (K.seen out.old))
        (devices (S.seen shelf.new) (K.seen out.new)) result }
{
    match read_words(words) {
        Some(words) => run_class(alloc, &words.files, &words, shelf, out),
        None => say(out, USAGE.as_bytes(), ClassStatus::Usage),
    }
}
