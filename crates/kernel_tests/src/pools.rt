//! A pool's calls over whole words and chunks, a million slots, and values that are dropped.
use crate::confirm::confirm;
use raw_pool::{NoMemory, Pool, Slot};
use std::alloc::Global;
use std::rc::Rc;
use std::test::Fail;

#[derive(Clone, Copy, Debug, PartialEq, Eq)]
struct Corner {
    vertex: u32,
    next: Option<u32>,
    at: i64,
}

#[test]
fn five_values_and_a_copy(rt: HostRuntime) -> Result<(), Fail> {
    let mut pool: Pool<i64, 4> = Pool::new(rt.alloc());
    confirm(&rt, "no value yet", pool.first().is_none());
    confirm(&rt, "room for five", pool.reserve(5).is_ok());
    confirm(&rt, "places for five", pool.spare() >= 5);
    let a = pool.put(10);
    let b = pool.put(20);
    let c = pool.put(30);
    let d = pool.put(40);
    let e = pool.put(50);

    confirm(&rt, "the second is there", pool.contains(b));
    confirm(&rt, "the second comes out", pool.take(b) == 20);
    confirm(&rt, "it is gone", !pool.contains(b));
    confirm(&rt, "its place is vacant", pool.spare() >= 1);
    let f = pool.put(60);
    confirm(&rt, "the place is used again", f == b);

    // The five slots differ, and the walk gives each once, rising.
    let mut walked = Vec::new(rt.alloc());
    let mut at = pool.first();
    for _ in 0..9 {
        let Some(s) = at else {
            break;
        };
        confirm(&rt, "walked over a live slot", pool.contains(s));
        walked.push(s.0)?;
        at = pool.after(s);
    }
    confirm(&rt, "the walk has an end", at.is_none());
    confirm(&rt, "five in all", walked.len() == 5);
    for k in 1..walked.len() {
        confirm(&rt, "slots rise", walked[k - 1] < walked[k]);
    }
    for (s, value) in [(a, 10), (f, 60), (c, 30), (d, 40), (e, 50)] {
        confirm(&rt, "a slot was walked over", walked.contains(&s.0));
        confirm(&rt, "a slot is live", pool.contains(s));
        confirm(&rt, "a slot has its value", *pool.get(s) == value);
    }

    let mut twin = pool.copy(rt.alloc())?;
    confirm(&rt, "the first is there", pool.contains(a));
    *pool.get_mut(a) = 11;
    for s in 0..pool.capacity() {
        let s = Slot(s as u32);
        confirm(
            &rt,
            "live in both or neither",
            twin.contains(s) == pool.contains(s),
        );
    }
    for (s, value) in [(a, 10), (f, 60), (c, 30), (d, 40), (e, 50)] {
        confirm(&rt, "live in the copy", twin.contains(s));
        confirm(&rt, "the value in the copy", *twin.get(s) == value);
    }

    // The copy's vacant places are its own.
    confirm(&rt, "a place in the pool", pool.spare() >= 1);
    confirm(&rt, "a place in the copy", twin.spare() >= 1);
    confirm(&rt, "the same place in both", twin.put(70) == pool.put(80));
    Ok(())
}

// The live slots, by the walk.
fn walk(alloc: Global, pool: &Pool<Corner, 50>) -> Result<Vec<u32>, NoMemory> {
    let mut all = Vec::new(alloc);
    let mut at = pool.first();
    for _ in 0..pool.capacity() {
        let Some(s) = at else {
            break;
        };
        all.push(s.0)?;
        at = pool.after(s);
    }
    Ok(all)
}

#[test]
fn walks_over_whole_words(rt: HostRuntime) -> Result<(), Fail> {
    let alloc = rt.alloc();
    let mut pool: Pool<Corner, 50> = Pool::new(alloc);
    pool.reserve(301)?;
    confirm(&rt, "whole chunks", pool.capacity() == 350);
    for k in 0..350 {
        confirm(&rt, "a place for each", pool.spare() >= 1);
        pool.put(Corner {
            vertex: k,
            next: None,
            at: -5,
        });
    }
    confirm(&rt, "all full", pool.spare() == 0);

    // What stays lies on both sides of words and chunks.
    let stay: [u32; 7] = [0, 63, 64, 130, 191, 192, 349];
    for k in 0..350 {
        let s = Slot(k);
        if !stay.contains(&k) {
            confirm(&rt, "it is live", pool.contains(s));
            pool.take(s);
        }
    }
    confirm(
        &rt,
        "what stays",
        walk(alloc, &pool)?.as_slice() == stay.as_slice(),
    );
    confirm(&rt, "what is vacant", pool.spare() == 343);

    let s = Slot(191);
    confirm(&rt, "still live", pool.contains(s));
    let corner = pool.get_mut(s);
    corner.next = Some(7);
    confirm(&rt, "live after a change", pool.contains(s));
    let corner = pool.get(s);
    confirm(&rt, "the change", corner.next == Some(7));
    confirm(&rt, "the rest", corner.at == -5);

    // There is room already.
    confirm(&rt, "chunks as before", pool.capacity() == 350);
    pool.reserve(343)?;
    confirm(&rt, "room already", pool.capacity() == 350);
    pool.reserve(344)?;
    confirm(&rt, "one chunk more", pool.capacity() == 400);
    confirm(
        &rt,
        "what stays, after more room",
        walk(alloc, &pool)?.as_slice() == stay.as_slice(),
    );
    Ok(())
}

#[test]
fn a_million_slots_are_used_again(rt: HostRuntime) -> Result<(), Fail> {
    const COUNT: usize = 1_000_000;
    let alloc = rt.alloc();
    let mut pool: Pool<i64, 65536> = Pool::new(alloc);
    pool.reserve(COUNT)?;
    let capacity = pool.capacity();
    let mut slots = Vec::new(alloc);
    for k in 0..COUNT {
        confirm(&rt, "a place for each", pool.spare() >= 1);
        slots.push(pool.put(k as i64 * 3))?;
    }
    confirm(&rt, "all there", slots.len() == COUNT);
    for k in 0..COUNT {
        if k % 2 == 1 {
            confirm(&rt, "an odd one is live", pool.contains(slots[k]));
            confirm(
                &rt,
                "its value comes out",
                pool.take(slots[k]) == k as i64 * 3,
            );
        }
    }

    // The slot that was left last is given first.
    for k in 0..COUNT {
        if k % 2 == 0 {
            confirm(&rt, "a place again", pool.spare() >= 1);
            confirm(
                &rt,
                "the slot left last",
                pool.put(-(k as i64)) == slots[COUNT - 1 - k],
            );
        }
    }
    confirm(&rt, "no more room", pool.capacity() == capacity);

    for k in 0..COUNT {
        confirm(&rt, "each is live", pool.contains(slots[k]));
        let expected = if k % 2 == 0 {
            k as i64 * 3
        } else {
            k as i64 - (COUNT as i64 - 1)
        };
        confirm(&rt, "each has its value", *pool.get(slots[k]) == expected);
    }
    Ok(())
}

#[test]
fn each_value_is_dropped_once(rt: HostRuntime) -> Result<(), Fail> {
    let counted = Rc::new(rt.alloc(), 7)?;
    let mut pool: Pool<Rc<u64>, 3> = Pool::new(rt.alloc());
    pool.reserve(7)?;
    let mut slots = Vec::new(rt.alloc());
    for _ in 0..7 {
        let value = counted.clone()?;
        confirm(&rt, "a place for each", pool.spare() >= 1);
        slots.push(pool.put(value))?;
    }
    confirm(&rt, "seven", slots.len() == 7);
    confirm(&rt, "eight owners", Rc::strong_count(&counted) == 8);

    // Two come out and are dropped here, and the place of one is filled again.
    confirm(&rt, "one is live", pool.contains(slots[1]));
    drop(pool.take(slots[1]));
    confirm(&rt, "another is live", pool.contains(slots[4]));
    drop(pool.take(slots[4]));
    confirm(&rt, "six owners", Rc::strong_count(&counted) == 6);
    let value = counted.clone()?;
    confirm(&rt, "a place again", pool.spare() >= 1);
    pool.put(value);
    confirm(&rt, "seven owners", Rc::strong_count(&counted) == 7);
    drop(pool);
    confirm(&rt, "one owner", Rc::strong_count(&counted) == 1);
    Ok(())
}
