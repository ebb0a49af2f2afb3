// Differences as codes, and values that come back by them.
use delta_codes::{delta, undo, zigzag};
use std::alloc::{AllocError, Global};
use std::test::Fail;

#[test]
fn small_differences_have_small_codes(rt: HostRuntime) {
    for (difference, code) in [(0, 0), (-1, 1), (1, 2), (-2, 3), (2, 4)] {
        assert!(rt; zigzag(difference) == code);
        assert!(rt; undo(0, code) == difference);
    }
}

#[test]
fn values_come_back_by_their_differences(rt: HostRuntime) -> Result<(), Fail> {
    let deltas = delta(rt.alloc(), &[10, 12, 11])?;
    assert_eq!(rt; deltas.anchors.as_slice(), [10].as_slice());
    assert_eq!(rt; deltas.codes.as_slice(), [0, 4, 1].as_slice());
    for (before, code, value) in [
        (10, 4, 12),
        (12, 1, 11),
        // One below the least integer wraps round to the greatest.
        (i64::MIN, 1, i64::MAX),
    ] {
        assert!(rt; undo(before, code) == value);
    }
    Ok(())
}

// Whether anchors and codes mean these values: each 64th from the first on is an anchor, and the others follow by
// `undo`.
fn mean_values(anchors: &[i64], codes: &[u64], values: &[i64]) -> bool {
    let mut before = 0;
    let mut same = anchors.len() == codes.len().div_ceil(64) && codes.len() == values.len();
    for i in 0..codes.len() {
        before = match anchors.get(i / 64) {
            Some(anchor) if i % 64 == 0 => *anchor,
            _ => undo(before, codes[i]),
        };
        same = same && values.get(i) == Some(&before);
    }
    same
}

// The integers from `first` on, so many, and one more behind them.
fn rising_and_one(
    alloc: Global,
    first: i32,
    count: i32,
    behind: i64,
) -> Result<Vec<i64>, AllocError> {
    let mut values = Vec::new(alloc);
    for step in 0..count {
        values.push(i64::from(first) + i64::from(step))?;
    }
    values.push(behind)?;
    Ok(values)
}

#[test]
fn an_anchor_begins_each_sixty_four_values_anew(rt: HostRuntime) -> Result<(), Fail> {
    let alloc = rt.alloc();
    // The code of a value that stands as an anchor means nothing.
    for (anchors, codes, values) in [
        (
            [10].as_slice(),
            [0, 4, 1].as_slice(),
            [10, 12, 11].as_slice(),
        ),
        (
            [10].as_slice(),
            [9, 4, 1].as_slice(),
            [10, 12, 11].as_slice(),
        ),
        (
            [i64::MIN].as_slice(),
            [0, 1].as_slice(),
            [i64::MIN, i64::MAX].as_slice(),
        ),
        ([].as_slice(), [].as_slice(), [].as_slice()),
    ] {
        assert!(rt; mean_values(anchors, codes, values));
    }
    // 64 values from 10 to 73, each one above the one before it, and then the second anchor.
    let codes = vec![in alloc; 2u64; 65]?;
    let values = rising_and_one(alloc, 10, 64, -5)?;
    assert!(rt; mean_values(&[10, -5], &codes, &values));
    Ok(())
}
