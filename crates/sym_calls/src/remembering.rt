//! A logic that remembers calls.

ghost use Rattle.std.specs.Prelude.{◌≡◌, ◌++◌, ◌∷◌, [], IfSome, OnOk};
ghost use Rattle.bit_words.specs.Logic.{OwnsAll};
ghost use Rattle.sym_values.specs.Forms.{joined, values_bits};
ghost use Rattle.sym_calls.specs.Pairs.{paired};
ghost use Rattle.sym_calls.specs.Remembered.{AreRight, IsAnswer};

use crate::call::{Call, MadeCall};
use crate::matching::{copy_of, is_same_call};
use crate::setting::Setting;
use bit_words::NoMemory;
use bit_words::logic::Logic;
use std::alloc::Global;
use std::marker::PhantomData;
use sym_values::SymOutcome;

/// A logic, and the calls that were made over it so far. What they gave is right at each later
/// state, so a call that was made needn't be made again.
pub struct Remembering<'a, L: Logic, K: Setting<L::Bit>> {
    pub logic: &'a mut L,
    made: Vec<MadeCall<L::Bit>>,
    of: PhantomData<K>,
    ghost right: { ∥ AreRight L.owns L.reads K.fixed logic.now made.items ∥₁ },
}

/// Each bit is one of the logic's. The number of variables is paired with the name of the
/// reference, so that a later state is known to be one of the same logic.
impl<L: Logic, K: Setting<L::Bit>> Logic for Remembering<'_, L, K> {
    type Bit = L::Bit;

    ghost owns = { λ s b. L.owns s.logic.now b };

    ghost reads = { λ s vs b. L.reads s.logic.now vs b };

    ghost count = { λ s. paired (L.count s.logic.now) s.logic.ghost_name };

    fn constant(&self, b: bool) -> L::Bit {
        self.logic.constant(b)
    }

    fn not(&self, a: L::Bit) -> L::Bit {
        self.logic.not(a)
    }

    fn and(&mut self, a: L::Bit, b: L::Bit) -> Result<L::Bit, NoMemory> {
        self.logic.and(a, b)
    }

    fn choose(&mut self, c: L::Bit, yes: L::Bit, no: L::Bit) -> Result<L::Bit, NoMemory> {
        self.logic.choose(c, yes, no)
    }

    fn xor(&mut self, a: L::Bit, b: L::Bit) -> Result<L::Bit, NoMemory> {
        self.logic.xor(a, b)
    }

    fn same(&self, a: L::Bit, b: L::Bit) -> bool {
        self.logic.same(a, b)
    }

    fn known(&self, a: L::Bit) -> Option<bool> {
        self.logic.known(a)
    }
}

impl<'a, L: Logic, K: Setting<L::Bit>> Remembering<'a, L, K> {
    /// The logic, with no calls made.
    pub fn new(alloc: Global, logic: &'a mut L) -> Self
        requires { OwnsAll L.owns logic.old (joined K.fixed.picks) }
        ensures same_reference { result.logic.ghost_name ≡ logic.entry.ghost_name }
        ensures value { result.logic.now ≡ logic.old }
    {
        Remembering {
            logic,
            made: Vec::new(alloc),
            of: PhantomData,
        }
    }

    /// The logic, given back.
    pub fn into_logic(self) -> &'a mut L
        ensures same_reference { result.ghost_name ≡ self.entry.logic.ghost_name }
        ensures value { result.now ≡ self.entry.logic.now }
    {
        let Remembering {
            logic,
            made: _,
            of: _,
        } = self;
        logic
    }

    // What the field says, for a proof that asks more than that it can be proved.
    fn reveal(&self)
        ensures { AreRight L.owns L.reads K.fixed self.now.logic.now self.now.made.items }
    {}

    /// What a call gave that was made before.
    pub(crate) fn find(&self, call: &Call<L::Bit>) -> Option<&SymOutcome<L::Bit>>
        requires { OwnsAll L.owns self.now.logic.now (values_bits call.now.args) }
        ensures { IfSome result (λ o.
            IsAnswer L.owns L.reads K.fixed self.now.logic.now call.now o.now) }
    {
        self.reveal();
        let count = self.made.len();
        for i in 0..count {
            let last = &self.made[count - 1 - i];
            if is_same_call(&*self.logic, &last.call, call) {
                return Some(&last.outcome);
            }
        }
        None
    }

    /// Remembers what a call gave. Where memory is wanting the calls stay as they were.
    pub(crate) fn remember(
        &mut self,
        call: Call<L::Bit>,
        outcome: &SymOutcome<L::Bit>,
    ) -> Result<(), NoMemory>
        requires args { OwnsAll L.owns self.old.logic.now (values_bits call.args) }
        requires answer { IsAnswer L.owns L.reads K.fixed self.old.logic.now call outcome.now }
        ensures unchanged { self.new.logic ≡ self.old.logic }
        ensures made { OnOk result (self.new.made.items
            ≡ self.old.made.items ++ record { call = call; outcome = outcome.now } ∷ []) }
    {
        let kept = copy_of(outcome)?;
        self.made.push(MadeCall {
            call,
            outcome: kept,
        })?;
        Ok(())
    }
}
