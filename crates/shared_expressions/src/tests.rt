//! Worked examples.

use crate::{Node, Pool};
use cell_values::{Addr, Area};
use formula_trees::{Args, Fun, Op, Part, Reference, Tree};
use std::alloc::{AllocError, Global};
use std::test::Fail;

fn one_left() -> Reference {
    Reference {
        sheet: None,
        col: Part::By(-1),
        row: Part::By(0),
    }
}

/// `=SUM(A1,A65536)+A1` at B1, with the second reference four rows down.
fn sample(alloc: Global) -> Result<Tree, AllocError> {
    let below = Reference {
        sheet: None,
        col: Part::At(1),
        row: Part::By(4),
    };
    let last = Args::More(
        Box::new(alloc, Tree::Ref(below))?,
        Box::new(alloc, Args::End)?,
    );
    let args = Args::More(
        Box::new(alloc, Tree::Ref(one_left()))?,
        Box::new(alloc, last)?,
    );
    let sum = Tree::Call(Fun::Sum, args);
    Ok(Tree::Binary(
        Op::Add,
        Box::new(alloc, sum)?,
        Box::new(alloc, Tree::Ref(one_left()))?,
    ))
}

fn cell(row: u32, col: u16) -> Addr {
    Addr { sheet: 0, row, col }
}

fn one_cell(row: u32, col: u16) -> Option<Area> {
    Some(Area {
        sheet: 0,
        top: row,
        left: col,
        bottom: row,
        right: col,
    })
}

#[test]
fn copies_share_one_expression(rt: HostRuntime) -> Result<(), Fail> {
    let alloc = rt.alloc();
    let mut pool = Pool::new(alloc);
    // `=A1` at B1 and `=A2` at B2.
    let first = pool.intern(alloc, &Tree::Ref(one_left()))?;
    let second = pool.intern(alloc, &Tree::Ref(one_left()))?;
    assert_eq!(rt; first, second);
    assert_eq!(rt; pool.tree(alloc, first)?, Tree::Ref(one_left()));

    let id = pool.intern(alloc, &sample(alloc)?)?;
    assert_eq!(rt; pool.intern(alloc, &sample(alloc)?)?, id);
    assert_eq!(rt; pool.tree(alloc, id)?, sample(alloc)?);
    assert_eq!(rt; pool.depth(id), 3);
    assert_eq!(rt; pool.node(id), Node::Binary(Op::Add));
    assert_eq!(rt; pool.child(id, 1), Some(first));
    assert_eq!(rt; pool.child(id, 2), None);
    Ok(())
}

#[test]
fn areas_inside_the_sheet_are_counted(rt: HostRuntime) -> Result<(), Fail> {
    let alloc = rt.alloc();
    let mut pool = Pool::new(alloc);
    let id = pool.intern(alloc, &sample(alloc)?)?;
    assert_eq!(rt; pool.area(id, cell(1, 2), 0), one_cell(1, 1));
    assert_eq!(rt; pool.area(id, cell(1, 2), 1), one_cell(5, 1));
    assert_eq!(rt; pool.area(id, cell(1, 2), 2), one_cell(1, 1));
    assert_eq!(rt; pool.area(id, cell(1, 2), 3), None);
    // Four rows below the last row but two lies no cell.
    assert_eq!(rt; pool.area(id, cell(65533, 2), 1), one_cell(65533, 1));
    assert_eq!(rt; pool.area(id, cell(65533, 2), 2), None);
    Ok(())
}
