//! The support of a book: its formula cells, each with the areas that its formula names.

ghost use Rattle.std.specs.Prelude.{◌≡◌, true, cond, Some, None, [], ◌++◌, IfOk, OnOk, OnErr, All, is_some};
ghost use Rattle.cell_values.specs.declared.address.Addr.{Addr};
ghost use Rattle.cell_values.specs.Addresses.{same_addr};
ghost use Rattle.cell_values.specs.Areas.{IsArea, cell_of, is_inside};
ghost use Rattle.cell_values.specs.Order.{InOrder, addresses, entry_at};
ghost use Rattle.support_graph.specs.Support.{dependents_of, listed, IsIndexed, IsCell, Reads};
ghost use Rattle.support_graph.specs.Steps.{AreRead, ReadsArea, Visits};

use crate::block::Block;
use crate::index::{Index, put_areas, take_areas, visit_column, visit_row};
use crate::search::Search;
use cell_values::{Addr, Area, LAST_ROW};
use std::alloc::{AllocError, Global};
use std::collections::{BTreeMap, BTreeSet};
use std::marker::Model;

/// The formula cells of a book, each with the areas that its formula names, in order of address.
/// Contracts see the list of the addresses with their areas.
///
/// Beside them stands an index of the blocks that each area is cut into and of the cells that read each
/// area, so a look-up of the cells that read an address takes a search in the index for each level and
/// for each area found, however large the areas are. The blocks of an area are kept once, however many
/// cells read it.
#[derive(Drop)]
pub struct Support {
    cells: BTreeMap<Addr, Vec<Area>>,
    index: Index,
    alloc: Global,
}

impl Model for Support {
    ghost use Rattle.std.specs.Prelude.{List};
    ghost use Rattle.cell_values.specs.declared.address.Addr.{Addr};
    ghost use Rattle.cell_values.specs.declared.address.Area.{Area};

    ghost Value = { List (Addr × List Area) };

    ghost use Rattle.support_graph.specs.Support.{listed, IsIndexed};

    ghost view = { λ s. listed s.cells.entries };

    ghost invariant = { λ s. IsIndexed (listed s.cells.entries) s.index.blocks.keys s.index.readers.keys };
}

impl Support {
    /// No cells.
    pub fn new(alloc: Global) -> Support
        ensures { result ≡ [] }
    {
        Support {
            cells: BTreeMap::new(alloc),
            index: Index::new(alloc),
            alloc,
        }
    }

    /// Adds a cell with the areas that it reads, none at a formula such as `=1`.
    pub fn add(&mut self, cell: Addr, areas: &[Area]) -> Result<(), AllocError>
        requires absent { entry_at self.old cell ≡ None }
        requires areas { All IsArea areas.now }
        ensures ok { OnOk result ((c : Addr) → entry_at self.new c ≡ cond (same_addr cell c) (Some areas.now) (entry_at self.old c)) }
        ensures err { OnErr result (self.new ≡ self.old) }
    {
        put_cell(self.alloc, &mut self.cells, &mut self.index, cell, areas)
    }

    /// Takes out a cell. One that is not there changes nothing.
    pub fn drop_cell(&mut self, cell: Addr)
        ensures { (c : Addr) → entry_at self.new c ≡ cond (same_addr cell c) None (entry_at self.old c) }
    {
        if let Some(areas) = self.cells.remove(&cell) {
            take_areas(&mut self.index, cell, &areas);
        }
    }

    /// Appends the cells with an area that holds the address, in order, each once.
    pub fn dependents(&self, addr: Addr, out: &mut Vec<Addr>) -> Result<(), AllocError>
        ensures ok { OnOk result (out.new.items ≡ out.old.items ++ dependents_of self.now addr) }
        ensures in_order { InOrder (dependents_of self.now addr) }
        ensures err { OnErr result (out.new.items ≡ out.old.items) }
    {
        let alloc = *out.allocator();
        let mut search = Search::new(alloc, &[]);
        self.visit_dependents(addr, &mut BTreeSet::new(alloc), &mut search)?;
        let found = search.found(alloc)?;
        out.extend_from_slice(&found)
    }

    /// Whether the cell is there. The cells stand in order.
    pub fn has(&self, cell: Addr) -> bool
        ensures there { result ≡ is_some (entry_at self.now cell) }
        ensures in_order { InOrder (addresses self.now) }
    {
        self.cells.contains_key(&cell)
    }

    /// The cells in order.
    pub(crate) fn cells(&self, alloc: Global) -> Result<Vec<Addr>, AllocError>
        ensures cells { IfOk result (λ v. v.items ≡ addresses self.now) }
        ensures in_order { InOrder (addresses self.now) }
    {
        self.cells.keys().copied().collect(alloc)
    }

    /// Visits the cells with an area that holds the address. Blocks that were visited before are left
    /// out, and new ones go on.
    pub(crate) fn visit_dependents(
        &self,
        addr: Addr,
        done: &mut BTreeSet<Block>,
        search: &mut Search<'_>,
    ) -> Result<(), AllocError>
        requires { AreRead self.now done.old.keys search.old }
        ensures visits { OnOk result (Visits (λ c. Reads self.now c addr) search.old search.new) }
        ensures done { OnOk result (AreRead self.now done.new.keys search.new) }
        ensures in_order { InOrder (addresses self.now) }
    {
        let index = &self.index;
        if addr.row > LAST_ROW {
            return Ok(());
        }
        visit_row(index, addr, done, search)
    }

    /// Visits the cells with an area that meets another area.
    pub(crate) fn visit_readers(
        &self,
        changed: Area,
        search: &mut Search<'_>,
    ) -> Result<(), AllocError>
        requires { IsArea changed }
        ensures { OnOk result (Visits (ReadsArea self.now changed 257) search.old search.new) }
    {
        let index = &self.index;
        for col in changed.left..changed.right + 1 {
            visit_column(
                index,
                changed.sheet,
                col,
                changed.top,
                changed.bottom,
                search,
            )?;
        }
        Ok(())
    }

    /// Visits the cells of an area.
    pub(crate) fn visit_cells(
        &self,
        changed: Area,
        search: &mut Search<'_>,
    ) -> Result<(), AllocError>
        requires { IsArea changed }
        ensures { OnOk result (Visits (λ c. IsCell self.now c × (is_inside changed c ≡ true)) search.old search.new) }
    {
        for (cell, _) in self.cells.range(first_of(changed)..=last_of(changed)) {
            visit_inside(changed, *cell, search)?;
        }
        Ok(())
    }
}

/// The cell and its areas into the map and the index, or neither.
fn put_cell(
    alloc: Global,
    cells: &mut BTreeMap<Addr, Vec<Area>>,
    index: &mut Index,
    cell: Addr,
    areas: &[Area],
) -> Result<(), AllocError>
    requires absent { entry_at (listed cells.old.entries) cell ≡ None }
    requires indexed { IsIndexed (listed cells.old.entries) index.old.blocks.keys index.old.readers.keys }
    requires areas { All IsArea areas.now }
    ensures indexed { IsIndexed (listed cells.new.entries) index.new.blocks.keys index.new.readers.keys }
    ensures ok { OnOk result ((c : Addr) → entry_at (listed cells.new.entries) c ≡ cond (same_addr cell c) (Some areas.now) (entry_at (listed cells.old.entries) c)) }
    ensures err { OnErr result (cells.new.entries ≡ cells.old.entries) }
{
    let list = Vec::from_slice(alloc, areas)?;
    put_areas(index, cell, areas)?;
    match cells.insert(cell, list) {
        Ok(_) => Ok(()),
        Err(failed) => {
            take_areas(index, cell, areas);
            Err(failed.into())
        }
    }
}

/// Visits a cell if the area has it.
fn visit_inside(changed: Area, cell: Addr, search: &mut Search<'_>) -> Result<(), AllocError>
    ensures { OnOk result (Visits (λ c. (c ≡ cell) × (is_inside changed c ≡ true)) search.old search.new) }
{
    if changed.holds(cell) {
        search.visit(cell)
    } else {
        Ok(())
    }
}

/// The first cell of an area.
pub(crate) fn first_of(area: Area) -> Addr
    ensures { result ≡ cell_of area 0 0 }
{
    Addr {
        sheet: area.sheet,
        row: area.top,
        col: area.left,
    }
}

/// The last cell of an area.
pub(crate) fn last_of(area: Area) -> Addr
    ensures { (result.sheet ≡ area.sheet) × (result.row ≡ area.bottom) × (result.col ≡ area.right) }
{
    Addr {
        sheet: area.sheet,
        row: area.bottom,
        col: area.right,
    }
}
