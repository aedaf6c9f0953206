//! Laws of the order in which questions are asked.
ghost use Rattle.cegis_loop.specs.OrderLaws.{AnyRuledOut, CheaperRuledOut, ChoiceDidntFail};
ghost use Rattle.cegis_loop.specs.OrderLaws.{FewQuestions};

use crate::questions::Questions;

/// A law over the definitions: a whole search asks few questions.
pub fn few_questions<Q: Questions>()
    ensures { (topic : Q.Topic) → FewQuestions (Q.space topic) }
{}

/// A law over the definitions: where a whole search ends with a choice that costs something, the
/// question for a cheaper one was asked over all kept inputs, and refuted.
pub fn cheaper_ruled_out<Q: Questions>()
    ensures { (topic : Q.Topic) → CheaperRuledOut (Q.space topic) }
{}

/// A law over the definitions: where a whole search ends with a choice, the question whether it
/// fails was refuted, and none for another choice was.
pub fn choice_didnt_fail<Q: Questions>()
    ensures { (topic : Q.Topic) → ChoiceDidntFail (Q.space topic) }
{}

/// A law over the definitions: where a whole search ends with no choice, the question for any
/// choice was asked over all kept inputs, and refuted.
pub fn any_ruled_out<Q: Questions>()
    ensures { (topic : Q.Topic) → AnyRuledOut (Q.space topic) }
{}
