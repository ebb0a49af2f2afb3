// Columns of sets that are written and read back.
use crate::encoding::{is_written_so, read_back_len};
use crate::vectors::{EXCHANGED, SET, set_cell};
use column_bytes::Kind;
use std::test::Fail;

#[test]
fn sets_are_written_and_read_back(rt: HostRuntime) -> Result<(), Fail> {
    let alloc = rt.alloc();
    let mut one = Vec::new(alloc);
    one.push(set_cell(alloc, &["a", "b"])?)?;
    assert!(rt; is_written_so(alloc, Kind::Sets, &one, SET)?);
    assert!(rt; !is_written_so(alloc, Kind::Sets, &one, EXCHANGED)?);
    // Texts that fall are no set.
    let mut wrong = Vec::new(alloc);
    wrong.push(set_cell(alloc, &["b", "a"])?)?;
    assert_eq!(rt; read_back_len(alloc, Kind::Sets, &wrong)?, None);
    Ok(())
}

#[test]
fn each_set_and_each_text_is_written_once(rt: HostRuntime) -> Result<(), Fail> {
    let alloc = rt.alloc();
    let mut cells = Vec::new(alloc);
    cells.push(set_cell(alloc, &["b", "c"])?)?;
    cells.push(None)?;
    cells.push(set_cell(alloc, &[])?)?;
    cells.push(set_cell(alloc, &["a", "b"])?)?;
    cells.push(set_cell(alloc, &["b", "c"])?)?;
    // A byte of presence, two of codes, three texts of a byte with their ends, three sets with theirs, and four
    // members.
    assert_eq!(rt;
        read_back_len(alloc, Kind::Sets, &cells)?,
        Some(40 + 1 + 2 + 4 + 12 + 3 + 4 + 12 + 16)
    );
    Ok(())
}
