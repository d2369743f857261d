//! What is kept beside the workbook.

ghost use Rattle.std.specs.Prelude.{◌≡◌, [], true, false, not, ◌||◌, OnOk, OnErr};
ghost use Rattle.cell_values.specs.Areas.{is_inside, IsArea};
ghost use Rattle.cell_values.specs.Order.{InOrder};
ghost use Rattle.demand_spec.specs.Edits.{pending_after};
ghost use Rattle.support_graph.specs.Pending.{among};
ghost use Rattle.recalculation.specs.Standing.{pending_in, IsProgressBut, IsProgress};

use crate::book::known;
use crate::links::{link_area, support_of};
use cell_values::{Addr, Area};
use demand_spec::Results;
use std::alloc::{AllocError, Global};
use std::collections::BTreeMap;
use support_graph::{Stale, Support};
use workbook_core::{EditFault, Workbook};

/// The support of the workbook, its pending cells, and the results of the others. Until the support is built all
/// formula cells are pending, and nothing is kept. The results may hold more: what stands there for a pending cell, or
/// for one without a formula, is never read.
#[derive(Drop)]
pub(crate) struct Progress {
    pub(crate) support: Support,
    pub(crate) stale: Stale,
    pub(crate) stored: Results,
    pub(crate) built: bool,
    pub(crate) alloc: Global,
}

impl Progress {
    /// No support is built.
    pub(crate) fn new(alloc: Global) -> Progress
        ensures unbuilt { result.built ≡ false }
        ensures support { result.support ≡ [] }
        ensures stale { result.stale ≡ [] }
    {
        Progress {
            support: Support::new(alloc),
            stale: Stale::new(alloc),
            stored: BTreeMap::new(alloc),
            built: false,
            alloc,
        }
    }

    /// Whether the cell is pending, if it has a formula.
    pub(crate) fn is_pending(&self, at: Addr) -> bool
        ensures { result ≡ (not self.now.built || among self.now.stale at) }
    {
        !self.built || self.stale.holds(at)
    }

    /// Lets go of the support, so that all formula cells are pending. Takes no memory.
    pub(crate) fn forget(&mut self)
        ensures unbuilt { self.new.built ≡ false }
        ensures support { self.new.support ≡ [] }
        ensures stale { self.new.stale ≡ [] }
    {
        self.support = Support::new(self.alloc);
        self.stale.empty();
        self.built = false;
    }

    /// Builds the support, where it is not built.
    pub(crate) fn build(&mut self, book: &Workbook) -> Result<(), AllocError>
        requires { IsProgress book.now.book self.old }
        ensures progress { IsProgress book.now.book self.new }
        ensures same { pending_in book.now.book self.new ≡ pending_in book.now.book self.old }
        ensures built { OnOk result (self.new.built ≡ true) }
    {
        if self.built {
            return Ok(());
        }
        let support = support_of(self.alloc, book)?;
        self.stale.fill(&support)?;
        ordered(&self.stale);
        known(book);
        self.support = support;
        self.built = true;
        Ok(())
    }

    /// Follows an edit of an area, whose cells the workbook holds already.
    fn update(&mut self, book: &Workbook, changed: Area) -> Result<(), AllocError>
        requires area { IsArea changed }
        requires built { self.old.built ≡ true }
        requires progress { IsProgressBut book.now.book (is_inside changed) self.old }
        ensures progress { OnOk result (IsProgress book.now.book self.new) }
        ensures built { self.new.built ≡ true }
        ensures pending { OnOk result (self.new.stale ≡ pending_after book.now.book self.old.stale (is_inside changed)) }
    {
        link_area(self.alloc, &mut self.support, book, changed)?;
        self.stale.edited(&self.support, changed)?;
        ordered(&self.stale);
        known(book);
        Ok(())
    }

    /// The same, if the support is built. Where memory runs out, all formula cells are pending.
    pub(crate) fn follow(&mut self, book: &Workbook, changed: Area) -> Result<(), AllocError>
        requires area { IsArea changed }
        requires progress { IsProgressBut book.now.book (is_inside changed) self.old }
        ensures progress { IsProgress book.now.book self.new }
        ensures built { OnOk result (self.new.built ≡ self.old.built) }
        ensures pending { OnOk result (self.old.built ≡ true → self.new.stale ≡ pending_after book.now.book self.old.stale (is_inside changed)) }
        ensures err { OnErr result (self.new.built ≡ false) }
    {
        if !self.built {
            return Ok(());
        }
        match self.update(book, changed) {
            Ok(()) => Ok(()),
            Err(error) => {
                self.forget();
                Err(error)
            }
        }
    }

    /// Lets go of the support where an edit found no memory.
    pub(crate) fn fail(&mut self, fault: EditFault)
        ensures unbuilt { fault ≡ EditFault.OutOfMemory → self.new.built ≡ false }
        ensures support { fault ≡ EditFault.OutOfMemory → self.new.support ≡ [] }
        ensures stale { fault ≡ EditFault.OutOfMemory → self.new.stale ≡ [] }
        ensures other { (fault ≡ EditFault.OutOfMemory → ⊥) → self.new ≡ self.old }
    {
        match fault {
            EditFault::OutOfMemory => self.forget(),
            EditFault::BadFormula { .. } | EditFault::TooManyCells => {}
        }
    }
}

/// What holds of all lists of pending cells, as their count tells it.
pub(crate) fn ordered(stale: &Stale)
    ensures { InOrder stale.now }
{
    let _count = stale.len();
}
