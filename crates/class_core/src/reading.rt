//! Reading the words of `mpyclass`.
ghost use Rattle.std.specs.Prelude.{◌≡◌, IfNone, IfSome, map};
ghost use Rattle.std.specs.String.{string_bytes};
ghost use Rattle.class_core.specs.Requests.{words_of};
ghost use Rattle.class_core.specs.Words.{Asks, ClassWords as AnyWords};

use crate::words::ClassWords;
use class_run::ClassFiles;
use step_lines::numbers::number_within;

/// The greatest budget.
const MOST_CLAUSES: u32 = 200_000;

/// What the words ask for, if they have the form.
pub(crate) fn read_words(words: &[String]) -> Option<ClassWords<'_>>
    ensures found { IfSome result (λ w. Asks (map string_bytes words.now) (words_of w)) }
    ensures none { IfNone result ((w : AnyWords) → Asks (map string_bytes words.now) w → ⊥) }
{
    let [bounds, reference, rules, list, budget] = words else {
        return None;
    };
    let budget = number_within(budget.as_bytes(), 1, MOST_CLAUSES)?;
    Some(ClassWords {
        files: ClassFiles {
            bounds: bounds.as_str(),
            reference: reference.as_str(),
            rules: rules.as_str(),
            list: list.as_str(),
        },
        budget,
    })
}
