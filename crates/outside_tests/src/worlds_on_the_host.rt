use byte_sink::Sink;
use std::test::Fail;
use worlds::{HostWorld, World, WorldFault};

// With no file open, and with a file that isn't there.
fn answers(world: &mut HostWorld) -> Result<(usize, usize, bool), WorldFault> {
    let mut into = [0; 3];
    let read = world.read(&mut into)?;
    let written = world.write(b"abc")?;
    world.finish()?;
    Ok((read, written, world.start_read("no/such/file").is_ok()))
}

#[test]
fn a_host_with_no_file(rt: HostRuntime) -> Result<(), Fail> {
    let mut world = HostWorld::new(rt);
    match answers(&mut world)? {
        (0, 3, false) => Ok(()),
        _ => Err("the answers with no file open")?,
    }
}
