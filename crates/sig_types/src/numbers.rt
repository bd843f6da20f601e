//! Weights and costs, which are in their ranges by type.
//!
//! A weight is a prior: how often a fault is met, beside the other weights. The ranges bound every sum that the search
//! makes, so that none of them wraps.
ghost use Rattle.std.specs.Prelude.{◌≡◌, ◌<◌, ◌≤◌, SomeIff};

use std::marker::Model;

/// A weight, 1 to 1,000,000.
#[derive(Clone, Copy, Debug, PartialEq, Eq)]
pub struct Weight(u32);

impl Model for Weight {
    ghost use Rattle.std.specs.Prelude.{ℕ, ◌≤◌, refl};

    ghost Value = { ℕ };

    ghost view = { λ w. w.0 };

    ghost invariant = { λ w. (1 ≤ w.0) × (w.0 ≤ 1000000) };

    ghost inverse = { λ n. record { 0 = n } };

    ghost inverse_ok = { λ a h. refl };
}

impl Weight {
    /// The weight of this number, where it is in range.
    pub fn of(n: u64) -> Option<Weight>
        ensures { SomeIff result ((1 ≤ n) × (n ≤ 1000000)) n }
    {
        if 1 <= n && n <= 1_000_000 {
            Some(Weight(n as u32))
        } else {
            None
        }
    }

    /// The number itself.
    pub fn get(&self) -> u32
        ensures value { result ≡ self.now }
        ensures range { (1 ≤ result) × (result ≤ 1000000) }
    {
        self.0
    }
}

/// A cost, 1 to 1,000,000.
#[derive(Clone, Copy, Debug, PartialEq, Eq)]
pub struct Cost(u32);

impl Model for Cost {
    ghost use Rattle.std.specs.Prelude.{ℕ, ◌≤◌, refl};

    ghost Value = { ℕ };

    ghost view = { λ w. w.0 };

    ghost invariant = { λ w. (1 ≤ w.0) × (w.0 ≤ 1000000) };

    ghost inverse = { λ n. record { 0 = n } };

    ghost inverse_ok = { λ a h. refl };
}

impl Cost {
    /// The cost of this number, where it is in range.
    pub fn of(n: u64) -> Option<Cost>
        ensures { SomeIff result ((1 ≤ n) × (n ≤ 1000000)) n }
    {
        if 1 <= n && n <= 1_000_000 {
            Some(Cost(n as u32))
        } else {
            None
        }
    }

    /// The number itself.
    pub fn get(&self) -> u32
        ensures value { result ≡ self.now }
        ensures range { (1 ≤ result) × (result ≤ 1000000) }
    {
        self.0
    }
}

/// The weight of no fault, 0 to 1,000,000; 0 takes the state of no fault out.
#[derive(Clone, Copy, Debug, PartialEq, Eq)]
pub struct Good(u32);

impl Model for Good {
    ghost use Rattle.std.specs.Prelude.{ℕ, ◌≤◌, refl};

    ghost Value = { ℕ };

    ghost view = { λ w. w.0 };

    ghost invariant = { λ w. w.0 ≤ 1000000 };

    ghost inverse = { λ n. record { 0 = n } };

    ghost inverse_ok = { λ a h. refl };
}

impl Good {
    /// The weight of no fault of this number, where it is in range.
    pub fn of(n: u64) -> Option<Good>
        ensures { SomeIff result (n ≤ 1000000) n }
    {
        if n <= 1_000_000 {
            Some(Good(n as u32))
        } else {
            None
        }
    }

    /// The number itself.
    pub fn get(&self) -> u32
        ensures value { result ≡ self.now }
        ensures range { result ≤ 1000000 }
    {
        self.0
    }
}
