//! The holes of a message.
ghost use Rattle.std.specs.Prelude.{◌≡◌, ◌++◌, MatchOption};
ghost use Rattle.feedback_text.specs.Messages.{BeginsNoHole, hole_text};

/// What the text of a rule may ask for.
#[derive(Clone, Copy)]
pub enum Hole {
    /// The line of the edit.
    Line,
    /// The term that was there.
    Old,
    /// The term that is there afterwards.
    New,
    /// The cost of the rule.
    Cost,
}

const HOLES: [Hole; 4] = [Hole::Line, Hole::Old, Hole::New, Hole::Cost];

impl Hole {
    /// How the text of a rule spells it.
    fn text(self) -> &'static [u8]
        ensures { result.now ≡ hole_text self }
    {
        match self {
            Hole::Line => b"{line}",
            Hole::Old => b"{old}",
            Hole::New => b"{new}",
            Hole::Cost => b"{cost}",
        }
    }
}

/// The hole with which a text begins, and the text behind it.
#[tactic(auto, using(crate::proofs::MessageLaws::one_more))]
pub(crate) fn split_hole(text: &[u8]) -> Option<(Hole, &[u8])>
    ensures { MatchOption result (BeginsNoHole text.now)
        (λ x. text.now ≡ hole_text x.0 ++ x.1.now) }
{
    for hole in HOLES {
        if let Some(rest) = text.strip_prefix(hole.text()) {
            return Some((hole, rest));
        }
    }
    None
}
