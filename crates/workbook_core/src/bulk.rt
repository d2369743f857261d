//! Many cells at once.
ghost use Rattle.std.specs.Map.{keys_of};
ghost use Rattle.std.specs.Prelude.{◌≡◌, ◌+◌, ◌≤◌, true, [], Some, None, IsSome, length, IfOk, OnOk, OnErr};
ghost use Rattle.cell_values.specs.Order.{InOrder, addresses as cell_addresses, entry_at};
ghost use Rattle.workbook_core.specs.Copies.{among, empty_among, SetsAll, Writes};
ghost use Rattle.workbook_core.specs.Held.{cells_in, SetsHeld};

use crate::Content;
use crate::cells::CellMap;
use cell_values::Addr;
use std::alloc::{AllocError, Global};

impl CellMap {
    /// The addresses without a cell.
    pub(crate) fn empty_among(
        &self,
        alloc: Global,
        addresses: &[Addr],
    ) -> Result<Vec<Addr>, AllocError>
        ensures { IfOk result (λ empty. empty.items ≡ empty_among self.now addresses.now) }
    {
        let mut empty = Vec::new(alloc);
        for at in addresses {
            if self.get(*at).is_none() {
                empty.push(*at)?;
            }
        }
        Ok(empty)
    }

    /// Clears cells.
    pub(crate) fn remove_all(&mut self, addresses: &[Addr])
        requires { InOrder (cell_addresses self.old) }
        ensures removed { SetsAll addresses.now None self.old self.new }
        ensures len { length self.new ≤ length self.old }
    {
        for at in addresses {
            self.remove(*at);
        }
    }

    /// Puts a content into empty cells, into all or none.
    pub(crate) fn add_all(&mut self, addresses: &[Addr], content: Content) -> Result<(), AllocError>
        requires order { InOrder (cell_addresses self.old) }
        requires empty { (a : _) → among addresses.now a ≡ true → entry_at self.old a ≡ None }
        ensures ok { OnOk result (SetsAll addresses.now (Some content) self.old self.new) }
        ensures len { OnOk result (length self.new ≤ length self.old + length addresses.now) }
        ensures err { OnErr result (self.new ≡ self.old) }
    {
        for (i, at) in addresses.iter().enumerate() {
            if let Err(failed) = self.set(*at, content) {
                self.remove_all(&addresses[..i]);
                return Err(failed);
            }
        }
        Ok(())
    }

    /// Puts contents into cells that are not empty. Takes no memory.
    pub(crate) fn replace_all(&mut self, contents: &[(Addr, Content)])
        requires order { InOrder (cell_addresses self.old) }
        requires there { (a : _) → among (keys_of contents.now) a ≡ true → IsSome (entry_at self.old a) }
        ensures written { Writes contents.now self.old self.new }
        ensures len { length self.new ≡ length self.old }
    {
        for (at, content) in contents {
            self.replace(*at, *content);
        }
    }

    /// Puts a content into a cell that is not empty.
    fn replace(&mut self, at: Addr, content: Content)
        requires { IsSome (entry_at self.old at) }
        ensures replaced { SetsHeld at (Some content) self.old self.new }
        ensures len { length self.new ≡ length self.old }
    {
        let _replaced = self.set(at, content);
    }
}
