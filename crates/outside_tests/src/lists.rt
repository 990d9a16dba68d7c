//! Lists.

use crate::confirm::confirm;
use sequence::{NoMemory, Sequence, Text};
use std::alloc::Global;
use std::test::Fail;

#[derive(Clone, Copy, Debug, PartialEq, Eq)]
enum Colour {
    Red,
    Grey(u8),
}

// The numbers below a count.
fn numbers(alloc: Global, count: u32) -> Result<Sequence<u32>, NoMemory> {
    let mut list = Sequence::new(alloc);
    for n in 0..count {
        list.push(n)?;
    }
    Ok(list)
}

// Whether a list of three numbers and its copy are in order.
fn are_in_order(alloc: Global) -> Result<[bool; 2], NoMemory> {
    let list = numbers(alloc, 3)?;
    let copy = list.copy()?;
    let wanted = [0, 1, 2];
    Ok([
        list.as_slice() == wanted.as_slice(),
        copy.as_slice() == wanted.as_slice(),
    ])
}

#[test]
fn a_list_in_order(rt: HostRuntime) -> Result<(), Fail> {
    let are_in_order = are_in_order(rt.alloc())?;
    confirm(&rt, "in order", are_in_order == [true; 2]);
    Ok(())
}

// The length of a list of three numbers, told by itself, by its iterator and by the vector that it becomes.
fn lengths(alloc: Global) -> Result<[usize; 3], NoMemory> {
    let list = numbers(alloc, 3)?;
    let told = list.len();
    let met = list.iter().count();
    Ok([told, met, Vec::from(list).len()])
}

#[test]
fn a_list_has_a_length(rt: HostRuntime) -> Result<(), Fail> {
    let lengths = lengths(rt.alloc())?;
    confirm(&rt, "three", lengths == [3; 3]);
    Ok(())
}

// The length of the copy of a list of a million numbers, and its last number.
fn copied(alloc: Global) -> Result<(usize, Option<u32>), NoMemory> {
    let list = numbers(alloc, 1_000_000)?;
    let copy = list.copy()?;
    let last = copy.as_slice().last().copied();
    Ok((copy.len(), last))
}

#[test]
fn a_long_list(rt: HostRuntime) -> Result<(), Fail> {
    let (len, last) = copied(rt.alloc())?;
    confirm(&rt, "its length", len == 1_000_000);
    confirm(&rt, "its last number", last == Some(999_999));
    Ok(())
}

// The copy of a list of colours is equal to it.
fn colours_are_equal(alloc: Global) -> Result<bool, NoMemory> {
    let colours = [Colour::Red, Colour::Grey(7)];
    let list = Sequence::of(alloc, &colours)?;
    let copy = list.copy()?;
    Ok(copy.as_slice() == colours.as_slice())
}

#[test]
fn colours_are_copied(rt: HostRuntime) -> Result<(), Fail> {
    let equal = colours_are_equal(rt.alloc())?;
    confirm(&rt, "equal", equal);
    Ok(())
}

// A list of two texts, of which the second one is empty.
fn texts(alloc: Global) -> Result<Sequence<Text>, NoMemory> {
    let mut text = Text::of(alloc, b"one")?;
    text.append(b" more")?;
    let mut texts = Sequence::new(alloc);
    texts.push(text)?;
    texts.push(Text::new(alloc))?;
    Ok(texts)
}

// Whether a list has these two texts.
fn are_texts(texts: &[Text]) -> bool {
    match texts {
        [one, two] => one.as_slice() == b"one more".as_slice() && two.is_empty(),
        _ => false,
    }
}

// Whether the copy of a list of texts has the same texts.
fn texts_are_equal(alloc: Global) -> Result<bool, NoMemory> {
    let texts = texts(alloc)?;
    let copy = texts.copy()?;
    Ok(are_texts(copy.as_slice()))
}

#[test]
fn a_list_of_texts_is_copied(rt: HostRuntime) -> Result<(), Fail> {
    let equal = texts_are_equal(rt.alloc())?;
    confirm(&rt, "equal", equal);
    Ok(())
}
