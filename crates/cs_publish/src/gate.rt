//! A gate that workers ask before they make a state. `crashfs serve` prints its progress by one;
//! tests hold workers back by others.
ghost use Rattle.std.specs.Prelude.{◌≡◌, ℕ};

use std::marker::Model;

/// A gate that each worker asks before it makes a state.
pub trait Gate: Sync {
    /// The gate was asked about the number.
    ghost asked: { Self → ℕ → Type 0 } = { λ gate number. Unit {0} };

    /// A worker calls this with the number of a state before it makes the state, and waits until it
    /// returns.
    fn before_make(&self, number: u32)
        ensures { asked self.now number };
}

/// A gate that never blocks. For tests and benchmarks: no command uses it.
#[derive(Clone, Copy)]
pub struct NoGate;

impl Gate for NoGate {
    /// Returns at once, whatever the number is.
    fn before_make(&self, _number: u32) {}
}

/// A number about which the gate was asked. Only `ask` makes one, and a state is made only from
/// one. Contracts see the number.
#[derive(Drop)]
pub(crate) struct AskedNumber<'g, G: Gate> {
    /// The gate that was asked.
    gate: &'g G,
    /// The number of a state.
    number: u32,
}

impl<'g, G: Gate> Model for AskedNumber<'g, G> {
    ghost use Rattle.std.specs.Prelude.{ℕ};

    ghost Value = { ℕ };

    ghost view = { λ passed. passed.number };

    ghost invariant = { λ passed. G.asked passed.gate.now passed.number };
}

/// Asks the gate about the number, and returns the permission to make the state of that number.
pub(crate) fn ask<G: Gate>(gate: &G, number: u32) -> AskedNumber<'_, G>
    ensures { result ≡ number }
{
    gate.before_make(number);
    AskedNumber { gate, number }
}

impl<G: Gate> AskedNumber<'_, G> {
    /// The number of the state that may be made. The permission is used up.
    pub(crate) fn into_number(self) -> u32
        ensures { result ≡ self.entry }
    {
        self.number
    }
}
