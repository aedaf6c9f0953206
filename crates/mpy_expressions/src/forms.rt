//! What a kind of expression owes to the reader of expressions.
ghost use Rattle.std.specs.Prelude.{◌≡◌, IfOk, map, option_map};
ghost use Rattle.mpy_expressions.specs.Forms.{Forms};

use crate::NoMemory;
use mpy_tree::{ArithOp, Chars, CmpOp, Name};
use std::alloc::Global;

/// A kind of expression, each form built of its parts.
pub trait Forms: Drop {
    /// What stands in the place of an expression, beyond those of programs.
    type Hole;

    /// An operator beyond those of programs.
    type Operator: Drop;

    /// Expressions as mathematics.
    ghost Plain: { Type 0 };

    /// How each form is built.
    ghost forms: { Forms Self.Hole Plain };

    /// What an expression is as mathematics.
    ghost plain: { Self → Plain };

    /// What an operator builds of its parts.
    ghost operation: { Self.Operator → Plain → Plain → Plain };

    fn int(n: u32) -> Self
        ensures { plain result ≡ forms.Int n };

    fn text(characters: Chars) -> Self
        ensures { plain result ≡ forms.Text characters };

    fn truth(b: bool) -> Self
        ensures { plain result ≡ forms.Bool b };

    fn name(name: Name) -> Self
        ensures { plain result ≡ forms.Name name };

    /// The expression that a hole stands for, where it may stand.
    fn hole(alloc: Global, hole: &Self::Hole) -> Result<Option<Self>, NoMemory>
        ensures { IfOk result (λ r. option_map plain r ≡ forms.Hole hole.now) };

    /// The set of expressions, where it may stand.
    fn set(items: Vec<Self>) -> Option<Self>
        ensures { option_map plain result ≡ forms.Set (map plain items.items) };

    /// The operator of the level of `+` that a terminal stands for, where it may stand.
    fn operator(alloc: Global, x: &Self::Hole) -> Result<Option<Self::Operator>, NoMemory>
        ensures { IfOk result (λ r. option_map operation r ≡ forms.Operator x.now) };

    /// The comparison that a terminal stands for, where it may stand.
    fn comparator(alloc: Global, x: &Self::Hole) -> Result<Option<Self::Operator>, NoMemory>
        ensures { IfOk result (λ r. option_map operation r ≡ forms.Comparator x.now) };

    fn operated(alloc: Global, op: Self::Operator, a: Self, b: Self) -> Result<Self, NoMemory>
        ensures { IfOk result (λ r. plain r ≡ operation op (plain a) (plain b)) };

    fn list(items: Vec<Self>) -> Self
        ensures { plain result ≡ forms.List (map plain items.items) };

    fn call(function: Name, arguments: Vec<Self>) -> Self
        ensures { plain result ≡ forms.Call function (map plain arguments.items) };

    fn minus(alloc: Global, e: Self) -> Result<Self, NoMemory>
        ensures { IfOk result (λ r. plain r ≡ forms.Neg (plain e)) };

    fn negation(alloc: Global, e: Self) -> Result<Self, NoMemory>
        ensures { IfOk result (λ r. plain r ≡ forms.Not (plain e)) };

    fn arith(alloc: Global, op: ArithOp, a: Self, b: Self) -> Result<Self, NoMemory>
        ensures { IfOk result (λ r. plain r ≡ forms.Arith op (plain a) (plain b)) };

    fn comparison(alloc: Global, op: CmpOp, a: Self, b: Self) -> Result<Self, NoMemory>
        ensures { IfOk result (λ r. plain r ≡ forms.Cmp op (plain a) (plain b)) };

    fn both(alloc: Global, a: Self, b: Self) -> Result<Self, NoMemory>
        ensures { IfOk result (λ r. plain r ≡ forms.And (plain a) (plain b)) };

    fn either(alloc: Global, a: Self, b: Self) -> Result<Self, NoMemory>
        ensures { IfOk result (λ r. plain r ≡ forms.Or (plain a) (plain b)) };

    fn choice(alloc: Global, test: Self, yes: Self, no: Self) -> Result<Self, NoMemory>
        ensures { IfOk result (λ r. plain r ≡ forms.Cond (plain test) (plain yes) (plain no)) };

    fn index(alloc: Global, value: Self, index: Self) -> Result<Self, NoMemory>
        ensures { IfOk result (λ r. plain r ≡ forms.Index (plain value) (plain index)) };

    fn slice(
        alloc: Global,
        value: Self,
        from: Option<Self>,
        to: Option<Self>,
    ) -> Result<Self, NoMemory>
        ensures { IfOk result
            (λ r. plain r
            ≡ forms.Slice (plain value) (option_map plain from) (option_map plain to)) };
}
