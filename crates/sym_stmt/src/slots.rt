//! The slots of a function, from the facts about them.

ghost use Rattle.std.specs.Prelude.{◌≡◌, ◌++◌, ◌∷◌, [], All, map, if◌then◌else◌, IfOk, IsSome};
ghost use Rattle.std.specs.Prelude.{Some, slice_get};
ghost use Rattle.mpy_tree.specs.declared.typing.Slot.TheVariants as slot;
ghost use Rattle.mpy_tree.specs.Locals.{is_among};
ghost use Rattle.mpy_tree.specs.Rules.{single};
ghost use Rattle.mpy_tree.specs.Typings.{set_of};
ghost use Rattle.sym_stmt.specs.FactSlots.{AreSlotsOf, local_names};
ghost use Rattle.sym_stmt.specs.Programs.{TypesFunctions, functions_of};

use crate::program::Program;
use bit_words::NoMemory;
use choice_tree::WFunc;
use mpy_tree::{Fact, Limits, Name, Names, Slot, Tys};
use mpy_types::{FactList, Known};
use std::alloc::Global;
use sym_paths::Slots;

// Whether a name is among others.
fn is_among(names: &[Name], x: &Name) -> bool
    ensures { result ≡ is_among names.now x.now }
{
    names.iter().any(|y| x.is(y))
}

// Names with one that may be there already.
fn with_name(names: Vec<Name>, x: &Name) -> Result<Vec<Name>, NoMemory>
    ensures { IfOk result (λ r. r.items
        ≡ (if is_among names.items x.now then names.items else names.items ++ x.now ∷ [])) }
{
    let mut all = names;
    if !is_among(&all, x) {
        all.push(x.copy()?)?;
    }
    Ok(all)
}

// The parameters of a function, and then each other local about which there is a fact.
fn local_names(number: usize, params: &Names, facts: &[Fact]) -> Result<Names, NoMemory>
    ensures { IfOk result (λ r. r ≡ local_names number params.now facts.now) }
{
    let mut names = params.copy()?.into_vec();
    for fact in facts {
        if fact.func as usize == number {
            if let Slot::Local(x) = &fact.slot {
                names = with_name(names, x)?;
            }
        }
    }
    Ok(Names::from_vec(names))
}

// The types of locals that have one each.
fn local_types(alloc: Global, number: usize, names: &Names, facts: &[Fact]) -> Result<Tys, NoMemory>
    requires { All (λ x. IsSome (single (set_of facts.now) number (slot.Local x))) names.now }
    ensures { IfOk result (λ r. map (λ t. Some t) r
        ≡ map (λ x. single (set_of facts.now) number (slot.Local x)) names.now) }
{
    let known = FactList { facts };
    let mut types = Vec::new(alloc);
    for x in names.items() {
        match known.local(number, x).only() {
            None => unreachable!(),
            Some(ty) => types.push(ty)?,
        }
    }
    Ok(Tys::from_vec(types))
}

/// The slots of a function of a program, by its number: first its parameters, and then each other
/// local about which there is a fact. So many printed values are kept.
pub fn slots_of(
    alloc: Global,
    program: &Program<'_>,
    number: usize,
    func: &WFunc,
    limits: &Limits,
    prints: u32,
) -> Result<Slots, NoMemory>
    requires typed { TypesFunctions program.now.types.now.facts program.now.tree.now }
    requires place { slice_get (functions_of program.now.tree.now) number ≡ Some func.now }
    ensures { IfOk result (AreSlotsOf (single (set_of program.now.types.now.facts)) number
        func.now.params limits.now prints) }
{
    let facts = program.types.facts.items();
    let names = local_names(number, &func.params, facts)?;
    let types = local_types(alloc, number, &names, facts)?;
    Ok(Slots {
        limits: *limits,
        names,
        types,
        result: program.facts().result(number).only(),
        prints,
    })
}
