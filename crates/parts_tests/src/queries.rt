// The one text of a query that was read, and which rows stay behind a horizon and a cut.
use expiry::{cut_for, stays};
use leaf_model::Text;
use query_text::{parse, print};
use std::alloc::{AllocError, Global};
use std::test::Fail;

/// The one text of the query that a text is read as.
fn printed(alloc: Global, text: &[u8]) -> Result<Option<Text>, AllocError> {
    match parse(alloc, text) {
        Ok(query) => Ok(Some(print(alloc, &query)?)),
        Err(_fault) => Ok(None),
    }
}

#[test]
fn a_query_without_a_limit_is_printed_with_one(rt: HostRuntime) -> Result<(), Fail> {
    let query = b"SELECT COUNT(*) FROM t WHERE time >= 0 AND time <= 9";
    let Some(text) = printed(rt.alloc(), query)? else {
        panic!(rt; "no query");
    };
    assert_eq!(rt;
        text.as_str(),
        "SELECT COUNT(*) FROM t WHERE time >= 0 AND time <= 9 LIMIT 100000"
    );
    Ok(())
}

#[test]
fn rows_from_the_horizon_on_stay_behind_a_cut(rt: HostRuntime) -> Result<(), Fail> {
    let alloc = rt.alloc();
    for (skip, horizon, mask) in [
        (0, 0, [true, true, true]),
        (0, 5, [true, false, true]),
        (1, 0, [false, true, true]),
        (1, 5, [false, false, true]),
        (3, 5, [false, false, false]),
    ] {
        let stay = stays(alloc, &[5, 1, 9], skip, horizon)?;
        assert_eq!(rt; stay.as_slice(), mask.as_slice());
    }
    assert_eq!(rt; cut_for(2, 1), 1);
    Ok(())
}
