//! The spaces of all tasks, for the laws of searches.
ghost use Rattle.std.specs.Prelude.{[], None};
ghost use Rattle.certificate_laws.specs.Topics.{NoTask, Topic, space_of};

use cegis_loop::{Asked, Questions};
use choice_tree::Selection;
use input_space::Case;

/// Questions about no task, whose budget of 0 is spent. No one asks them: a law that holds for each
/// topic of a type of questions holds for all tasks by the topics of this type.
#[derive(Drop)]
pub struct NoQuestions;

impl Questions for NoQuestions {
    type Choice = Selection;

    type Input = Case;

    ghost Topic = { Topic };

    ghost topic = { λ q. NoTask };

    ghost space = { space_of };

    ghost seen = { λ q. record { kept = []; told = None; logged = 0 } };

    fn first(&mut self) -> Asked<Case> {
        Asked::Spent
    }

    fn propose(&mut self, _most: Option<u32>) -> Asked<Selection> {
        Asked::Spent
    }

    fn refute(&mut self, _c: &Selection) -> Asked<Case> {
        Asked::Spent
    }

    fn most_cost(&self) -> u32 {
        0
    }

    fn cost_of(&self, _c: &Selection) -> u32 {
        0
    }
}
