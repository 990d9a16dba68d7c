//! Numbers, and the faults of `add`.

use cust_data::{LayerFault, LayerSet, Rule, laws, mean, mix};
use std::test::Fail;

#[test]
fn numbers_round_down(rt: HostRuntime) {
    assert_eq!(rt; mix(0, -10, 1, 3), -4);
    assert_eq!(rt; mix(0, 10, 1, 3), 3);
    assert_eq!(rt; mix(i64::MIN, i64::MAX, 1, 2), -1);
    assert_eq!(rt;
        mix(-(1 << 60), 1 << 60, 999_999, 1_000_000),
        1_152_919_198_763_837_762
    );
    assert_eq!(rt; mean(Rule::Mix, &[-1, 0]), -1);
    assert_eq!(rt; mean(Rule::Mix, &[i64::MIN, i64::MIN, i64::MIN]), i64::MIN);
    assert_eq!(rt; mean(Rule::Copy, &[9, 1]), 9);
    laws::division_rounds_down();
    laws::mixing_has_ends();
    laws::worked_numbers();
    laws::worked_rows();
    laws::worked_refusals();
}

// The faults in order, each after what would be a later one, and that nothing comes of them.
#[test]
fn layers_are_refused(rt: HostRuntime) -> Result<(), Fail> {
    let mut set = LayerSet::new(rt.alloc());
    assert_eq!(rt; set.add(b"w", 2, Rule::Mix), Ok(()));
    assert_eq!(rt; set.add(b"w", 2, Rule::Mix), Err(LayerFault::LayerExists));
    assert_eq!(rt; set.add(b"", 2, Rule::Mix), Err(LayerFault::BadName));
    assert_eq!(rt; set.add(b"a b", 9, Rule::Mix), Err(LayerFault::BadName));
    assert_eq!(rt; set.add(&[97; 64], 2, Rule::Mix), Err(LayerFault::BadName));
    assert_eq!(rt; set.add(b"w", 5, Rule::Mix), Err(LayerFault::BadWidth));
    assert_eq!(rt; set.add(b"x", 0, Rule::Copy), Err(LayerFault::BadWidth));
    for letter in b'a'..=b'o' {
        assert_eq!(rt; set.add(&[letter; 63], 1, Rule::Copy), Ok(()));
    }
    assert_eq!(rt; set.add(b"p", 1, Rule::Mix), Err(LayerFault::TooManyLayers));
    assert_eq!(rt; set.add(b"w", 1, Rule::Mix), Err(LayerFault::LayerExists));
    assert_eq!(rt; set.layers(), 16);
    assert_eq!(rt; set.total(), 17);
    set.reserve(8)?;
    assert_eq!(rt; set.places(), 8);
    assert_eq!(rt; set.find(b"w"), Some(0));
    assert_eq!(rt; set.find(&[b'o'; 63]), Some(15));
    assert_eq!(rt; set.find(b"o"), None);
    let codes = [
        LayerFault::LayerExists,
        LayerFault::TooManyLayers,
        LayerFault::BadName,
        LayerFault::BadWidth,
        LayerFault::NoMemory,
    ]
    .map(|fault| fault.code());
    assert_eq!(rt; codes, [1, 2, 3, 4, 0]);
    Ok(())
}

// Without layers any number of places needs no memory; a layer there needs more than there is.
#[test]
fn memory_runs_out(rt: HostRuntime) -> Result<(), Fail> {
    let mut set = LayerSet::new(rt.alloc());
    set.reserve(1 << 61)?;
    assert_eq!(rt; set.add(b"w", 1, Rule::Mix), Err(LayerFault::NoMemory));
    assert_eq!(rt; set.layers(), 0);
    assert_eq!(rt; set.places(), 1 << 61);
    let mut set = LayerSet::new(rt.alloc());
    set.add(b"w", 1, Rule::Mix)?;
    assert!(rt; set.reserve(1 << 61).is_err());
    assert_eq!(rt; set.places(), 0);
    Ok(())
}
