//! Worlds in memory.

use crate::confirm::confirm;
use byte_sink::write_all;
use sequence::NoMemory;
use std::alloc::Global;
use std::test::Fail;
use worlds::{MemoryWorld, SureWorld, World, WorldFault};

// How many bytes of a file are read in so many calls on pieces of 100 bytes.
fn read_bytes<W: World>(world: &mut W, name: &str, calls: usize) -> Result<usize, WorldFault> {
    world.start_read(name)?;
    let mut piece = [0; 100];
    let mut count: usize = 0;
    for _ in 0..calls {
        count = count.saturating_add(world.read(&mut piece)?);
    }
    Ok(count)
}

// Makes a file.
fn write_bytes<W: World>(world: &mut W, name: &str, bytes: &[u8]) -> Result<(), WorldFault> {
    world.start_write(name)?;
    write_all(world, bytes)?;
    world.finish()?;
    Ok(())
}

// A world with one file.
fn with_file(alloc: Global, bytes: &[u8]) -> Result<MemoryWorld, NoMemory> {
    let mut world = MemoryWorld::new(alloc);
    world.add_file("in", bytes)?;
    Ok(world)
}

// How many bytes of a file of ten are read in three calls, and then in five.
fn read_twice(alloc: Global) -> Result<[usize; 2], WorldFault> {
    let mut world = with_file(alloc, b"0123456789")?;
    world.limit_pieces(3);
    let first = read_bytes(&mut world, "in", 3)?;
    let second = read_bytes(&mut world, "in", 5)?;
    Ok([first, second])
}

#[test]
fn a_file_is_read_in_pieces(rt: HostRuntime) -> Result<(), Fail> {
    let counts = read_twice(rt.alloc())?;
    confirm(&rt, "counts", counts == [9, 10]);
    Ok(())
}

// Whether a file that was made a few bytes at a time is whole.
fn is_made(alloc: Global) -> Result<bool, WorldFault> {
    let mut world = MemoryWorld::new(alloc);
    world.limit_pieces(3);
    write_bytes(&mut world, "out", b"a long text")?;
    Ok(world.made_file("out") == Some(b"a long text".as_slice()))
}

#[test]
fn a_file_is_made_in_pieces(rt: HostRuntime) -> Result<(), Fail> {
    let is_made = is_made(rt.alloc())?;
    confirm(&rt, "whole", is_made);
    Ok(())
}

// How many bytes of a line are printed in one call, and whether they are its first.
fn print_some(alloc: Global) -> Result<(usize, bool), WorldFault> {
    let mut world = MemoryWorld::new(alloc);
    world.limit_pieces(3);
    let count = world.print(b"line")?;
    Ok((count, world.printed_bytes() == b"lin".as_slice()))
}

#[test]
fn a_piece_is_printed(rt: HostRuntime) -> Result<(), Fail> {
    let (count, first) = print_some(rt.alloc())?;
    confirm(&rt, "three bytes", count == 3);
    confirm(&rt, "the first ones", first);
    Ok(())
}

// Whether a missing file is a fault, and how many bytes the world that never fails reads of it.
fn read_missing(alloc: Global) -> Result<(bool, usize), WorldFault> {
    let mut world = with_file(alloc, b"")?;
    let is_fault = read_bytes(&mut world, "model", 1) == Err(WorldFault::Failed);
    let mut sure = SureWorld::new(alloc);
    let count = read_bytes(&mut sure, "model", 1)?;
    Ok((is_fault, count))
}

#[test]
fn a_file_that_is_missing(rt: HostRuntime) -> Result<(), Fail> {
    let (is_fault, count) = read_missing(rt.alloc())?;
    confirm(&rt, "a fault", is_fault);
    confirm(&rt, "no bytes", count == 0);
    Ok(())
}

// Whether a file is made in a world whose call of this number fails.
fn is_made_without(alloc: Global, call: u64) -> Result<bool, NoMemory> {
    let mut world = MemoryWorld::new(alloc);
    world.fail_call(call)?;
    Ok(write_bytes(&mut world, "out", b"text").is_ok())
}

#[test]
fn calls_that_are_to_fail(rt: HostRuntime) -> Result<(), Fail> {
    for call in 0..4 {
        let is_made = is_made_without(rt.alloc(), call)?;
        confirm(&rt, "made", is_made == (call == 3));
    }
    Ok(())
}

// So many bytes.
fn many_bytes(alloc: Global, count: usize) -> Result<Vec<u8>, NoMemory> {
    let mut bytes = Vec::new(alloc);
    for _ in 0..count {
        bytes.push(b'x')?;
    }
    Ok(bytes)
}

// How many bytes of a long file are read.
fn read_long(alloc: Global) -> Result<usize, WorldFault> {
    let bytes = many_bytes(alloc, 100_000)?;
    let mut world = with_file(alloc, &bytes)?;
    read_bytes(&mut world, "in", 1001)
}

// Whether a long file that was made a few bytes at a time is whole.
fn is_long_made(alloc: Global) -> Result<bool, WorldFault> {
    let bytes = many_bytes(alloc, 100_000)?;
    let mut sure = SureWorld::new(alloc);
    sure.limit_pieces(7);
    write_bytes(&mut sure, "out", &bytes)?;
    Ok(sure.made_file("out") == Some(bytes.as_slice()))
}

#[test]
fn a_long_file(rt: HostRuntime) -> Result<(), Fail> {
    let count = read_long(rt.alloc())?;
    confirm(&rt, "read", count == 100_000);
    let is_made = is_long_made(rt.alloc())?;
    confirm(&rt, "made", is_made);
    Ok(())
}
