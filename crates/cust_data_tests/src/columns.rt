//! A column of each width.
ghost use Rattle.std.specs.Prelude.{◌≤◌, IsTrue};
ghost use Rattle.cust_data.specs.Layers.{is_width};

use cust_data::{Column, NoMemory};
use std::alloc::Global;
use std::process::Abort;
use std::test::Fail;

// Each call of a column once.
fn calls<const N: usize>(rt: &impl Abort, alloc: Global) -> Result<(), NoMemory>
    requires width { IsTrue (is_width N) }
    requires some { 1 ≤ N }
    requires few { N ≤ 4 }
{
    let numbers = [4, -3, 2, -1];
    let from = &numbers[..N];
    let mut column = Column::<N>::new(alloc);
    assert!(rt; column.is_empty());
    column.reserve(3)?;
    assert!(rt; column.len() == 3);
    assert!(rt; column.get(2)[N - 1] == 0);
    column.set(0, from);
    assert!(rt; column.get(0) == from);
    column.copy(0, 1);
    assert!(rt; column.get(1) == from);
    column.set_value(1, 0, 9);
    column.mix(0, 1, 1, 2, 2);
    assert!(rt; column.get(2)[0] == 6);
    column.clear(0);
    assert!(rt; column.get(0)[0] == 0);
    Ok(())
}

#[test]
fn every_width(rt: HostRuntime) -> Result<(), Fail> {
    calls::<1>(&rt, rt.alloc())?;
    calls::<2>(&rt, rt.alloc())?;
    calls::<3>(&rt, rt.alloc())?;
    calls::<4>(&rt, rt.alloc())?;
    Ok(())
}
