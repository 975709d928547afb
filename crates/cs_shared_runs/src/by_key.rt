//! The order of runs: by the numbers of their states, and then by their names.
ghost use Rattle.std.specs.Prelude.{refl};
ghost use Rattle.std.specs.Cmp.{partial_equiv_from_equiv};
ghost use Rattle.std.specs.Ordering.{as_partial_cmp};
ghost use Rattle.cs_registry.specs.Keys.{same_key, same_key-laws};
ghost use Rattle.cs_shared_runs.specs.Naming.{key_cmp, key_order, key_ties, key_total};

use crate::served::ServerBrand;
use crate::shared_run::SharedRun;
use std::cmp::Ordering;

impl<S: ServerBrand> PartialEq for SharedRun<S> {
    ghost eq = { same_key };

    ghost laws = { partial_equiv_from_equiv same_key-laws };

    /// Whether both handles have the same key.
    fn eq(&self, other: &SharedRun<S>) -> bool {
        self.key() == other.key()
    }
}

impl<S: ServerBrand> Eq for SharedRun<S> {
    ghost laws = { same_key-laws };
}

impl<S: ServerBrand> PartialOrd for SharedRun<S> {
    ghost partial_cmp = { as_partial_cmp key_cmp };

    ghost laws = { key_order };

    /// The order of the keys, as `cmp` returns it; never None.
    fn partial_cmp(&self, other: &SharedRun<S>) -> Option<Ordering> {
        Some(self.cmp(other))
    }
}

impl<S: ServerBrand> Ord for SharedRun<S> {
    ghost cmp = { key_cmp };

    ghost total = { key_total };

    ghost matches_partial_cmp = { λ x y. refl };

    ghost matches_eq = { key_ties };

    /// The order of the keys: by the numbers of the states, and then by the bytes of the names.
    fn cmp(&self, other: &SharedRun<S>) -> Ordering {
        let (one, other) = (self.key(), other.key());
        one.number()
            .cmp(&other.number())
            .then(one.name().cmp(other.name()))
    }
}
