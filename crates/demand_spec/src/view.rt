//! Books that tell what they hold.
ghost use Rattle.std.specs.Prelude.{◌≡◌, is_some};
ghost use Rattle.demand_spec.specs.Book.{formula_at};

use cell_values::{Addr, Shown};
use std::collections::BTreeMap;

/// A book of any form. Contracts see it as a finite map from addresses to cells, with its texts.
pub trait BookView: Sync {
    ghost use Rattle.demand_spec.specs.Book.{Book};

    ghost book: { Self → Book };

    /// Whether the cell holds a formula.
    fn has_formula(&self, at: Addr) -> bool
        ensures { result ≡ is_some (formula_at (book self.now) at) };
}

/// What cells show, by address.
pub type Results = BTreeMap<Addr, Shown>;
