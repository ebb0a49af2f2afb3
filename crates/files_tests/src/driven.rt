// A berth over files in memory, driven through all of its calls.
use crate::MemFiles;
use berth_face::{Berth, Failed};
use berth_files::FileBerth;
use std::test::Fail;

/// Whether a call was done.
fn is_done(done: Result<(), Failed>) -> bool {
    done.is_ok()
}

#[test]
fn a_berth_over_files_gives_back_what_was_written(rt: HostRuntime) -> Result<(), Fail> {
    let alloc = rt.alloc();
    let mut berth = FileBerth::over(MemFiles::new(Vec::new(alloc), Vec::new(alloc)));

    // A gap before a piece is filled with zeros, and a write of no bytes past the end is a gap alone.
    assert!(rt; is_done(berth.region_write(2, b"abcdefgh")));
    assert!(rt; is_done(berth.region_write(12, b"")));
    assert_eq!(rt; berth.region_len(), Ok(12));

    // More than the files give at once.
    let mut bytes = [9; 16];
    assert_eq!(rt; berth.region_read(1, &mut bytes), Ok(11));
    assert_eq!(rt;
        bytes.as_slice(),
        b"\0abcdefgh\0\0\x09\x09\x09\x09\x09".as_slice()
    );

    // A cut behind the end changes nothing.
    assert!(rt; is_done(berth.region_cut(20)));
    assert!(rt; is_done(berth.region_cut(4)));
    assert_eq!(rt; berth.region_len(), Ok(4));

    assert!(rt; is_done(berth.disk_write(0, b"log")));
    assert!(rt; is_done(berth.disk_sync()));
    assert_eq!(rt; berth.disk_len(), Ok(3));
    assert_eq!(rt; berth.disk_read(0, &mut bytes), Ok(3));

    // No file comes to 2^63 bytes.
    assert!(rt; !is_done(berth.region_write(1 << 63, b"a")));
    assert!(rt; !is_done(berth.disk_write((1 << 63) - 1, b"a")));
    assert_eq!(rt; berth.disk_read(u64::MAX, &mut bytes), Ok(0));
    Ok(())
}
