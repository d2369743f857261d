//! The areas that cells read: the blocks that each area is cut into, kept once however many cells read
//! it, and the cells that read each area.

ghost use Rattle.std.specs.Prelude.{◌≡◌, ◌≤◌, true, false, [], is_ok, IsOk, OnOk, All};
ghost use Rattle.cell_values.specs.declared.address.Addr.{Addr};
ghost use Rattle.cell_values.specs.Areas.{IsArea};
ghost use Rattle.support_graph.specs.Blocks.{corners, area_between, same_key, same_reader, has_reader, has_area, zero_addr, key_before, reader_before, next_corners};
ghost use Rattle.support_graph.specs.Support.{AreCut};
ghost use Rattle.support_graph.specs.Steps.{Sets, SetsReaders, Visits, AreSeen, EndInSheet, InBlocks, InColumn, is_end_key, is_level_key, is_column_key, is_area_key, is_cell_reader};

use crate::block::{Block, Corners, Key, LEVELS, Reader, high_end, low_end};
use crate::search::Search;
use crate::support::{first_of, last_of};
use cell_values::{Addr, Area};
use std::alloc::{AllocError, Global};
use std::collections::BTreeSet;

/// The blocks of the areas that cells read, and the cells by the area that they read.
#[derive(Drop)]
pub(crate) struct Index {
    pub blocks: BTreeSet<Key>,
    pub readers: BTreeSet<Reader>,
}

impl Index {
    /// No areas.
    pub(crate) fn new(alloc: Global) -> Index
        ensures { (result.blocks.keys ≡ []) × (result.readers.keys ≡ []) }
    {
        Index {
            blocks: BTreeSet::new(alloc),
            readers: BTreeSet::new(alloc),
        }
    }
}

/// Puts a key in or takes it out. Only putting in takes memory.
fn set_key(blocks: &mut BTreeSet<Key>, key: Key, present: bool) -> Result<(), AllocError>
    ensures sets { Sets (same_key key) present (is_ok result) blocks.old.keys blocks.new.keys }
    ensures out { present ≡ false → IsOk result }
{
    if present {
        blocks.insert(key)?;
    } else {
        blocks.remove(&key);
    }
    Ok(())
}

/// The same for an area's key at a block that may be there.
fn set_end(
    blocks: &mut BTreeSet<Key>,
    area: Corners,
    level: Block,
    end: Option<u32>,
    present: bool,
) -> Result<(), AllocError>
    ensures sets { Sets (is_end_key area level end) present (is_ok result) blocks.old.keys blocks.new.keys }
    ensures out { present ≡ false → IsOk result }
{
    match end {
        Some(number) => {
            let block = Block { number, ..level };
            set_key(blocks, Key { block, area }, present)
        }
        None => Ok(()),
    }
}

/// The same for the two ends of the blocks of a level from `low` up to and without `high`.
fn set_ends(
    blocks: &mut BTreeSet<Key>,
    area: Corners,
    level: Block,
    high: u32,
    present: bool,
) -> Result<(), AllocError>
    ensures sets { Sets (is_level_key area level high) present (is_ok result) blocks.old.keys blocks.new.keys }
    ensures out { present ≡ false → IsOk result }
{
    let low = level.number;
    set_end(blocks, area, level, low_end(low, high), present)?;
    set_end(blocks, area, level, high_end(low, high), present)
}

/// The same for the blocks of an area in one column.
fn set_column(
    blocks: &mut BTreeSet<Key>,
    area: Corners,
    col: u16,
    present: bool,
) -> Result<(), AllocError>
    requires { IsArea (area_between area) }
    ensures sets { Sets (is_column_key area col 16) present (is_ok result) blocks.old.keys blocks.new.keys }
    ensures out { present ≡ false → IsOk result }
{
    let mut low = area.first.row;
    let mut high = area.last.row + 1;
    for level in 0..LEVELS {
        let block = Block {
            sheet: area.first.sheet,
            col,
            level,
            number: low,
        };
        set_ends(blocks, area, block, high, present)?;
        low = (low + 1) / 2;
        high /= 2;
    }
    Ok(())
}

/// The same for all blocks of an area.
fn set_area(blocks: &mut BTreeSet<Key>, area: Corners, present: bool) -> Result<(), AllocError>
    requires { IsArea (area_between area) }
    ensures sets { Sets (is_area_key area) present (is_ok result) blocks.old.keys blocks.new.keys }
    ensures out { present ≡ false → IsOk result }
{
    for col in area.first.col..area.last.col + 1 {
        set_column(blocks, area, col, present)?;
    }
    Ok(())
}

/// Puts in a cell as a reader of an area.
fn insert_reader(readers: &mut BTreeSet<Reader>, reader: Reader) -> Result<(), AllocError>
    ensures sets { SetsReaders (same_reader reader) true (is_ok result) readers.old.keys readers.new.keys }
    ensures err { is_ok result ≡ false → readers.new.keys ≡ readers.old.keys }
{
    readers.insert(reader)?;
    Ok(())
}

/// Takes out a cell as a reader of an area.
fn remove_reader(readers: &mut BTreeSet<Reader>, reader: Reader)
    ensures { SetsReaders (same_reader reader) false true readers.old.keys readers.new.keys }
{
    readers.remove(&reader);
}

/// Whether a cell reads the area.
fn is_read(readers: &BTreeSet<Reader>, area: Corners) -> bool
    requires { area.last.col ≤ 256 }
    ensures { result ≡ has_area readers.now.keys area }
{
    let mut same = readers.range(first_reader(area)..first_reader(next_area(area)));
    same.next().is_some()
}

/// Puts in the blocks of an area that no cell reads, and a cell that reads it. After a failure some of
/// the blocks may be there.
fn put_both(index: &mut Index, area: Corners, cell: Addr) -> Result<(), AllocError>
    requires { IsArea (area_between area) }
    ensures blocks { Sets (is_area_key area) true (is_ok result) index.old.blocks.keys index.new.blocks.keys }
    ensures readers { SetsReaders (same_reader (record { area = area; cell = cell })) true (is_ok result) index.old.readers.keys index.new.readers.keys }
    ensures err { is_ok result ≡ false → index.new.readers.keys ≡ index.old.readers.keys }
{
    set_area(&mut index.blocks, area, true)?;
    insert_reader(&mut index.readers, Reader { area, cell })
}

/// The same, or nothing.
fn put_first(index: &mut Index, area: Corners, cell: Addr) -> Result<(), AllocError>
    requires area { IsArea (area_between area) }
    requires cut { AreCut index.old.blocks.keys index.old.readers.keys }
    requires none { has_area index.old.readers.keys area ≡ false }
    ensures readers { SetsReaders (same_reader (record { area = area; cell = cell })) true (is_ok result) index.old.readers.keys index.new.readers.keys }
    ensures cut { AreCut index.new.blocks.keys index.new.readers.keys }
{
    let added = put_both(index, area, cell);
    if added.is_err() {
        let _ = set_area(&mut index.blocks, area, false);
    }
    added
}

/// Puts in a cell as a reader of an area, with the blocks of the area if it is the first one.
fn put_reader(index: &mut Index, cell: Addr, area: Area) -> Result<(), AllocError>
    requires area { IsArea area }
    requires cut { AreCut index.old.blocks.keys index.old.readers.keys }
    ensures readers { SetsReaders (same_reader (record { area = corners area; cell = cell })) true (is_ok result) index.old.readers.keys index.new.readers.keys }
    ensures cut { AreCut index.new.blocks.keys index.new.readers.keys }
{
    let area = corners_of(area);
    let known = is_read(&index.readers, area);
    if !known {
        return put_first(index, area, cell);
    }
    insert_reader(&mut index.readers, Reader { area, cell })
}

/// Takes out a cell as a reader of an area, with the blocks of the area if it was the last one.
fn take_reader(index: &mut Index, cell: Addr, area: Area)
    requires area { IsArea area }
    requires cut { AreCut index.old.blocks.keys index.old.readers.keys }
    ensures readers { SetsReaders (same_reader (record { area = corners area; cell = cell })) false true index.old.readers.keys index.new.readers.keys }
    ensures cut { AreCut index.new.blocks.keys index.new.readers.keys }
{
    let area = corners_of(area);
    remove_reader(&mut index.readers, Reader { area, cell });
    let left = is_read(&index.readers, area);
    if !left {
        let _ = set_area(&mut index.blocks, area, false);
    }
}

/// Puts in a cell as a reader of areas. After a failure it may be a reader of some.
fn put_some(index: &mut Index, cell: Addr, areas: &[Area]) -> Result<(), AllocError>
    requires areas { All IsArea areas.now }
    requires cut { AreCut index.old.blocks.keys index.old.readers.keys }
    ensures readers { SetsReaders (is_cell_reader cell areas.now) true (is_ok result) index.old.readers.keys index.new.readers.keys }
    ensures cut { AreCut index.new.blocks.keys index.new.readers.keys }
{
    for area in areas {
        put_reader(index, cell, *area)?;
    }
    Ok(())
}

/// Puts in a cell as a reader of areas. After a failure it is a reader of none of them.
pub(crate) fn put_areas(index: &mut Index, cell: Addr, areas: &[Area]) -> Result<(), AllocError>
    requires areas { All IsArea areas.now }
    requires cut { AreCut index.old.blocks.keys index.old.readers.keys }
    ensures readers { SetsReaders (is_cell_reader cell areas.now) (is_ok result) true index.old.readers.keys index.new.readers.keys }
    ensures cut { AreCut index.new.blocks.keys index.new.readers.keys }
{
    let added = put_some(index, cell, areas);
    if added.is_err() {
        take_areas(index, cell, areas);
    }
    added
}

/// Takes out a cell as a reader of areas.
pub(crate) fn take_areas(index: &mut Index, cell: Addr, areas: &[Area])
    requires areas { All IsArea areas.now }
    requires cut { AreCut index.old.blocks.keys index.old.readers.keys }
    ensures readers { SetsReaders (is_cell_reader cell areas.now) false true index.old.readers.keys index.new.readers.keys }
    ensures cut { AreCut index.new.blocks.keys index.new.readers.keys }
{
    for area in areas {
        take_reader(index, cell, *area);
    }
}

/// Visits the cells that read an area at the blocks of some rows of a column.
pub(crate) fn visit_column(
    index: &Index,
    sheet: u8,
    col: u16,
    top: u32,
    bottom: u32,
    search: &mut Search<'_>,
) -> Result<(), AllocError>
    requires rows { top ≤ bottom }
    requires few { bottom ≤ 65536 }
    requires ends { EndInSheet index.now.blocks.keys }
    ensures { OnOk result (Visits (InColumn index.now.blocks.keys index.now.readers.keys sheet col top bottom 16) search.old search.new) }
{
    let mut first = top;
    let mut last = bottom;
    for level in 0..LEVELS {
        let block = Block {
            sheet,
            col,
            level,
            number: first,
        };
        visit_blocks(index, block, last, search)?;
        first /= 2;
        last /= 2;
    }
    Ok(())
}

/// Visits the cells that read an area at the blocks of a row of a column, leaving out the blocks that
/// were visited before.
pub(crate) fn visit_row(
    index: &Index,
    addr: Addr,
    done: &mut BTreeSet<Block>,
    search: &mut Search<'_>,
) -> Result<(), AllocError>
    requires few { addr.row ≤ 65536 }
    requires ends { EndInSheet index.now.blocks.keys }
    requires done { AreSeen index.now.blocks.keys index.now.readers.keys done.old.keys search.old }
    ensures visits { OnOk result (Visits (InColumn index.now.blocks.keys index.now.readers.keys addr.sheet addr.col addr.row addr.row 16) search.old search.new) }
    ensures done { OnOk result (AreSeen index.now.blocks.keys index.now.readers.keys done.new.keys search.new) }
{
    let mut number = addr.row;
    for level in 0..LEVELS {
        let block = Block {
            sheet: addr.sheet,
            col: addr.col,
            level,
            number,
        };
        visit_block_once(index, block, done, search)?;
        number /= 2;
    }
    Ok(())
}

/// Visits the cells that read an area at a block, unless it was visited before.
fn visit_block_once(
    index: &Index,
    block: Block,
    done: &mut BTreeSet<Block>,
    search: &mut Search<'_>,
) -> Result<(), AllocError>
    requires few { block.number ≤ 65536 }
    requires ends { EndInSheet index.now.blocks.keys }
    requires done { AreSeen index.now.blocks.keys index.now.readers.keys done.old.keys search.old }
    ensures visits { OnOk result (Visits (InBlocks index.now.blocks.keys index.now.readers.keys block block.number) search.old search.new) }
    ensures done { OnOk result (AreSeen index.now.blocks.keys index.now.readers.keys done.new.keys search.new) }
{
    if done.insert(block)? {
        visit_blocks(index, block, block.number, search)
    } else {
        Ok(())
    }
}

/// Visits the cells that read an area at the blocks of a level from `first` to the one with the number
/// `last`.
fn visit_blocks(
    index: &Index,
    first: Block,
    last: u32,
    search: &mut Search<'_>,
) -> Result<(), AllocError>
    requires forward { first.number ≤ last }
    requires few { last ≤ 65536 }
    requires ends { EndInSheet index.now.blocks.keys }
    ensures { OnOk result (Visits (InBlocks index.now.blocks.keys index.now.readers.keys first last) search.old search.new) }
{
    let end = Block {
        number: last + 1,
        ..first
    };
    for key in index.blocks.range(first_key(first)..first_key(end)) {
        visit_area(&index.readers, key.area, search)?;
    }
    Ok(())
}

/// Visits the cells that read an area.
fn visit_area(
    readers: &BTreeSet<Reader>,
    area: Corners,
    search: &mut Search<'_>,
) -> Result<(), AllocError>
    requires { area.last.col ≤ 256 }
    ensures { OnOk result (Visits (λ c. has_reader readers.now.keys (record { area = area; cell = c }) ≡ true) search.old search.new) }
{
    for reader in readers.range(first_reader(area)..first_reader(next_area(area))) {
        search.visit(reader.cell)?;
    }
    Ok(())
}

/// The corners of an area.
fn corners_of(area: Area) -> Corners
    ensures { result ≡ corners area }
{
    Corners {
        first: first_of(area),
        last: last_of(area),
    }
}

/// No key of the block stands before this one.
fn first_key(block: Block) -> Key
    ensures { result ≡ key_before block }
{
    let none = first_addr();
    Key {
        block,
        area: Corners {
            first: none,
            last: none,
        },
    }
}

/// No reader of the area stands before this one.
fn first_reader(area: Corners) -> Reader
    ensures { result ≡ reader_before area }
{
    Reader {
        area,
        cell: first_addr(),
    }
}

/// No cell stands before this one.
fn first_addr() -> Addr
    ensures { result ≡ zero_addr }
{
    Addr {
        sheet: 0,
        row: 0,
        col: 0,
    }
}

/// No corners stand between these and those of the area.
fn next_area(area: Corners) -> Corners
    requires { area.last.col ≤ 256 }
    ensures { result ≡ next_corners area }
{
    Corners {
        last: Addr {
            col: area.last.col + 1,
            ..area.last
        },
        ..area
    }
}
