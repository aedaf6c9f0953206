//! What a search asks.
ghost use Rattle.std.specs.Prelude.{◌≡◌, [], ◌++◌, length};
ghost use Rattle.cegis_loop.specs.Asking.{IfFound, OnNothing, IsAsked, found};
ghost use Rattle.cegis_loop.specs.Space.{AgreesOn, IsFail, IsInput, IsLow, NoneAbove, Space};
ghost use Rattle.cegis_loop.specs.State.{Fail, First, Low, State};

use crate::asked::Asked;

/// Choices with their costs, and inputs, which are found by questions. An input that is found is
/// kept, and a budget may be spent.
pub trait Questions {
    type Choice: Drop;

    type Input: Drop;

    /// What the questions are about. No call changes it.
    ghost Topic: { Type 0 };

    ghost topic: { Self → Topic };

    /// The choices and the inputs.
    ghost space: { Topic → Space Self.Choice Self.Input };

    /// What was asked, and what came of it.
    ghost seen: { Self → State Self.Choice Self.Input };

    /// An input, or nothing where there is none.
    fn first(&mut self) -> Asked<Self::Input>
        ensures same { topic self.new ≡ topic self.old }
        ensures found { IfFound result (IsInput (space (topic self.old))) }
        ensures nothing { OnNothing result ((space (topic self.old)).inputs ≡ []) }
        ensures kept { (seen self.new).kept ≡ (seen self.old).kept ++ found result }
        ensures asked { IsAsked (space (topic self.old)) First result (seen self.old)
            (seen self.new) };

    /// A choice of a cost of at most `most`, where that is given, that agrees on all kept inputs,
    /// or nothing where there is none.
    fn propose(&mut self, most: Option<u32>) -> Asked<Self::Choice>
        ensures same { topic self.new ≡ topic self.old }
        ensures found { IfFound result (IsLow (space (topic self.old)) most (seen self.old).kept) }
        ensures nothing { OnNothing result ((c : Self.Choice)
            → ¬ IsLow (space (topic self.old)) most (seen self.old).kept c) }
        ensures kept { (seen self.new).kept ≡ (seen self.old).kept }
        ensures asked { IsAsked (space (topic self.old)) (Low most (length (seen self.old).kept))
            result (seen self.old) (seen self.new) };

    /// An input on which a choice fails, or nothing where it agrees on all.
    fn refute(&mut self, c: &Self::Choice) -> Asked<Self::Input>
        requires { (space (topic self.old)).is_choice c.now }
        ensures same { topic self.new ≡ topic self.old }
        ensures found { IfFound result (IsFail (space (topic self.old)) c.now) }
        ensures nothing { OnNothing result (AgreesOn (space (topic self.old))
            (space (topic self.old)).inputs c.now) }
        ensures kept { (seen self.new).kept ≡ (seen self.old).kept ++ found result }
        ensures asked { IsAsked (space (topic self.old)) (Fail c.now) result (seen self.old)
            (seen self.new) };

    /// The greatest cost of a choice, or a greater number.
    fn most_cost(&self) -> u32
        ensures value { result ≡ (space (topic self.now)).most_cost }
        ensures most { NoneAbove (space (topic self.now)) result };

    /// What a choice costs.
    fn cost_of(&self, c: &Self::Choice) -> u32
        requires { (space (topic self.now)).is_choice c.now }
        ensures { result ≡ (space (topic self.now)).cost c.now };
}
