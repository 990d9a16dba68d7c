//! Rows, read and written.
ghost use Rattle.std.specs.Prelude.{◌≡◌, length, IfOk};
ghost use Rattle.cust_data.specs.Layers.{total};

use cust_data::{LayerFault, LayerSet, Rule};
use std::alloc::Global;
use std::process::Abort;
use std::test::Fail;

// A layer of two numbers that are mixed and one of a number that is copied, at three places.
fn small(rt: &impl Abort, alloc: Global) -> Result<LayerSet, LayerFault>
    ensures { IfOk result (λ set. (length set.rows ≡ 3) × (total set.layers ≡ 3)) }
{
    let mut set = LayerSet::new(alloc);
    set.add(b"uv", 2, Rule::Mix)?;
    set.add(b"material", 1, Rule::Copy)?;
    set.reserve(3)?;
    set.reserve(2)?;
    assert!(rt; set.places() == 3);
    assert!(rt; set.total() == 3);
    Ok(set)
}

#[test]
fn layers_are_read(rt: HostRuntime) -> Result<(), Fail> {
    let set = small(&rt, rt.alloc())?;
    assert_eq!(rt; set.layers(), 2);
    assert_eq!(rt; set.layer_name(1), b"material".as_slice());
    assert_eq!(rt; set.layer_width(0), 2);
    assert_eq!(rt; set.layer_rule(1), Rule::Copy);
    assert_eq!(rt; set.find(b"material"), Some(1));
    Ok(())
}

#[test]
fn rows_are_mixed(rt: HostRuntime) -> Result<(), Fail> {
    let mut set = small(&rt, rt.alloc())?;
    let mut row = [1; 3];
    set.row(2, &mut row);
    assert_eq!(rt; row, [0, 0, 0]);
    set.set_row(0, &[0, 10, 3]);
    set.set_row(1, &[5, -5, 7]);
    set.mix_row(0, 1, 1, 2, 2);
    set.row(2, &mut row);
    assert_eq!(rt; row, [2, 2, 3]);
    Ok(())
}

#[test]
fn rows_are_copied(rt: HostRuntime) -> Result<(), Fail> {
    let mut set = small(&rt, rt.alloc())?;
    let mut row = [1; 3];
    set.set_row(1, &[5, -5, 7]);
    set.copy_row(1, 0);
    set.set_value(0, 2, 9);
    assert_eq!(rt; set.value(0, 2), 9);
    set.clear_row(1);
    set.row(1, &mut row);
    assert_eq!(rt; row, [0, 0, 0]);
    set.row(0, &mut row);
    assert_eq!(rt; row, [5, -5, 9]);
    Ok(())
}

// Writes (x, -x) at each place, x being its number modulo 1,000.
fn fill(set: &mut LayerSet)
    requires { total set.old.layers ≡ 2 }
    ensures layers { set.new.layers ≡ set.old.layers }
    ensures places { length set.new.rows ≡ length set.old.rows }
{
    for place in 0..set.places() {
        let x = (place % 1000) as i64;
        set.set_row(place, &[x, -x]);
    }
}

// Moves each row halfway to the first, which is (0, 0).
fn halve(set: &mut LayerSet)
    requires { total set.old.layers ≡ 2 }
    ensures layers { set.new.layers ≡ set.old.layers }
    ensures places { length set.new.rows ≡ length set.old.rows }
{
    for place in 0..set.places() {
        set.mix_row(place, 0, 1, 2, place);
    }
}

// Reads each row back.
fn check(rt: &impl Abort, set: &LayerSet)
    requires { total set.now.layers ≡ 2 }
{
    for place in 0..set.places() {
        let x = (place % 1000) as i64;
        let mut row = [0; 2];
        set.row(place, &mut row);
        assert!(rt; row == [x / 2, -((x + 1) / 2)], "at {place}");
    }
}

#[test]
fn a_million_places(rt: HostRuntime) -> Result<(), Fail> {
    let mut set = LayerSet::new(rt.alloc());
    set.add(b"uv", 2, Rule::Mix)?;
    for places in 1..=1000 {
        set.reserve(places * 1000)?;
    }
    assert_eq!(rt; set.places(), 1_000_000);
    assert_eq!(rt; set.total(), 2);
    fill(&mut set);
    halve(&mut set);
    check(&rt, &set);
    Ok(())
}
