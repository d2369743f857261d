//! Lists of cells in order of address.

ghost use Rattle.std.specs.Prelude.{◌≡◌, ◌≤◌, true, false, ◌⊎◌, ◌↔◌, take, length, IfOk};
ghost use Rattle.cell_values.specs.declared.address.Addr.{Addr};
ghost use Rattle.cell_values.specs.Addresses.{IsBefore};
ghost use Rattle.cell_values.specs.Order.{InOrder};
ghost use Rattle.demand_spec.specs.Laws.{In};
ghost use Rattle.support_graph.specs.Steps.{TookOne};

use cell_values::Addr;
use std::alloc::{AllocError, Global};

/// Whether the list has the cell.
pub(crate) fn is_among(cells: &[Addr], cell: Addr) -> bool
    ensures found { result ≡ true → In cell cells.now }
    ensures missed { InOrder cells.now → result ≡ false → In cell cells.now → ⊥ }
{
    cells.binary_search(&cell).is_ok()
}

/// A place in the list, such that all cells in front of it stand before this one, and as few as can be
/// behind it.
pub(crate) fn first_from(cells: &[Addr], cell: Addr) -> usize
    requires { InOrder cells.now }
    ensures bound { result ≤ length cells.now }
    ensures before { (c : Addr) → In c (take result cells.now) → IsBefore c cell }
{
    match cells.binary_search(&cell) {
        Ok(place) => place,
        Err(place) => place,
    }
}

/// Whether a cell stands behind another one.
pub(crate) fn is_behind(cell: Addr, other: Addr) -> bool
    ensures { result ≡ true → IsBefore other cell }
{
    cell > other
}

/// The cells of both lists, each once.
pub(crate) fn merged(alloc: Global, old: &[Addr], new: &[Addr]) -> Result<Vec<Addr>, AllocError>
    requires old { InOrder old.now }
    requires new { InOrder new.now }
    ensures in_order { IfOk result (λ v. InOrder v.items) }
    ensures cells { IfOk result (λ v. (c : Addr) → In c v.items ↔ (In c old.now ⊎ In c new.now)) }
{
    let mut all = Vec::new(alloc);
    let mut i = 0;
    let mut j = 0;
    while i < old.len() && j < new.len() {
        if push_lesser(&mut all, old[i], new[j])? {
            i += 1;
        } else {
            j += 1;
        }
    }
    all.extend_from_slice(&old[i..])?;
    all.extend_from_slice(&new[j..])?;
    Ok(all)
}

/// Pushes the lesser of two cells and tells whether it is the first one. Nothing where they are one cell.
fn push_lesser(all: &mut Vec<Addr>, first: Addr, second: Addr) -> Result<bool, AllocError>
    ensures { IfOk result (λ b. TookOne b first second all.old.items all.new.items) }
{
    if first < second {
        all.push(first)?;
        return Ok(true);
    }
    if first > second {
        all.push(second)?;
    }
    Ok(false)
}
