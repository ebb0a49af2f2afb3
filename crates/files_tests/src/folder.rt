// A berth over the files of a folder of the system, driven through all of its calls.
use berth_face::{Berth, Failed};
use berth_files::{Access, FileBerth, FolderFiles};
use std::path::PathBuf;
use std::test::Fail;
use std::{env, fs, process};

/// The path of a folder for a test of this name alone, which is not there.
fn no_folder(rt: &HostRuntime, test: &str) -> Result<PathBuf, Fail> {
    let alloc = rt.alloc();
    let name = format!(in alloc; "scuba.{test}.{}", process::id(rt.process()))?;
    let folder = env::temp_dir(rt)?.join(alloc, name.as_str())?;
    if fs::exists(rt, folder.as_path())? {
        fs::remove_dir_all(rt, folder.as_path())?;
    }
    Ok(folder)
}

/// A berth over the files of leaf 0.
fn berth_over(
    rt: HostRuntime,
    folder: &PathBuf,
    access: Access,
) -> Result<FileBerth<FolderFiles>, Fail> {
    Ok(FileBerth::new(rt, folder.as_str(), 0, access)?)
}

#[test]
fn a_berth_over_a_folder_gives_back_what_was_written(rt: HostRuntime) -> Result<(), Fail> {
    let folder = no_folder(&rt, "written")?;
    fs::create_dir(&rt, folder.as_path())?;
    let mut berth = berth_over(rt, &folder, Access::Serve)?;
    let mut bytes = [9; 16];

    // Files that are not there hold nothing, and no read and no cut makes them.
    assert_eq!(rt; berth.region_len(), Ok(0));
    assert_eq!(rt; berth.disk_read(0, &mut bytes), Ok(0));
    assert_eq!(rt; berth.region_cut(0), Ok(()));
    assert_eq!(rt; fs::read_dir(&rt, folder.as_path())?.count(), 0);

    // A gap before a piece is filled with zeros, and a write of no bytes past the end is a gap alone.
    assert_eq!(rt; berth.region_write(2, b"abcdefgh"), Ok(()));
    assert_eq!(rt; berth.region_write(12, b""), Ok(()));
    assert_eq!(rt; berth.region_len(), Ok(12));
    assert_eq!(rt; berth.region_read(1, &mut bytes), Ok(11));
    assert_eq!(rt;
        bytes.as_slice(),
        b"\0abcdefgh\0\0\x09\x09\x09\x09\x09".as_slice()
    );

    // A cut after the end changes nothing.
    assert_eq!(rt; berth.region_cut(20), Ok(()));
    assert_eq!(rt; berth.region_len(), Ok(12));
    assert_eq!(rt; berth.region_cut(4), Ok(()));
    assert_eq!(rt; berth.disk_write(0, b"log"), Ok(()));
    assert_eq!(rt; berth.disk_sync(), Ok(()));
    assert_eq!(rt; berth.disk_len(), Ok(3));

    // The system has in two files what was written.
    let region = folder.join(rt.alloc(), "leaf-0.region")?;
    let disk = folder.join(rt.alloc(), "leaf-0.disk")?;
    assert_eq!(rt;
        fs::read(&rt, region.as_path())?.as_slice(),
        b"\0\0ab".as_slice()
    );
    assert_eq!(rt;
        fs::read(&rt, disk.as_path())?.as_slice(),
        b"log".as_slice()
    );
    fs::remove_dir_all(&rt, folder.as_path())?;
    Ok(())
}

#[test]
fn one_berth_serves_a_folder_and_others_look(rt: HostRuntime) -> Result<(), Fail> {
    let folder = no_folder(&rt, "locked")?;
    fs::create_dir(&rt, folder.as_path())?;
    let mut berth = berth_over(rt, &folder, Access::Serve)?;
    assert_eq!(rt; berth.region_write(0, b"abc"), Ok(()));
    assert_eq!(rt; berth.disk_write(0, b"log"), Ok(()));
    let mut other = berth_over(rt, &folder, Access::Serve)?;
    assert_eq!(rt; other.region_len(), Err(Failed));
    assert_eq!(rt; other.disk_write(0, b"x"), Err(Failed));

    // A look reads beside it, and writes nothing.
    let mut look = berth_over(rt, &folder, Access::Look)?;
    let mut bytes = [9; 4];
    assert_eq!(rt; look.region_read(1, &mut bytes), Ok(2));
    assert_eq!(rt; bytes.as_slice(), b"bc\x09\x09".as_slice());
    assert_eq!(rt; look.region_write(0, b"x"), Err(Failed));
    assert_eq!(rt; look.region_cut(0), Err(Failed));
    assert_eq!(rt; look.disk_write(0, b"x"), Err(Failed));

    // With the berth its locks go.
    drop(berth);
    assert_eq!(rt; other.region_len(), Ok(3));
    assert_eq!(rt; other.disk_len(), Ok(3));
    fs::remove_dir_all(&rt, folder.as_path())?;
    Ok(())
}

#[test]
fn a_berth_whose_files_cannot_be_had_fails(rt: HostRuntime) -> Result<(), Fail> {
    // A folder that is not there holds nothing, and nothing can be written into it.
    let folder = no_folder(&rt, "missing")?;
    let mut berth = berth_over(rt, &folder, Access::Serve)?;
    assert_eq!(rt; berth.region_len(), Ok(0));
    assert_eq!(rt; berth.region_write(0, b"a"), Err(Failed));
    assert_eq!(rt; berth.disk_write(0, b"a"), Err(Failed));

    // Folders in the place of both files.
    fs::create_dir(&rt, folder.as_path())?;
    fs::create_dir(&rt, folder.join(rt.alloc(), "leaf-0.region")?)?;
    fs::create_dir(&rt, folder.join(rt.alloc(), "leaf-0.disk")?)?;
    let mut bytes = [9; 4];
    for access in [Access::Serve, Access::Look] {
        let mut berth = berth_over(rt, &folder, access)?;
        assert_eq!(rt; berth.region_len(), Err(Failed));
        assert_eq!(rt; berth.region_read(0, &mut bytes), Err(Failed));
        assert_eq!(rt; berth.region_write(0, b"a"), Err(Failed));
        assert_eq!(rt; berth.region_cut(0), Err(Failed));
        assert_eq!(rt; berth.disk_len(), Err(Failed));
        assert_eq!(rt; berth.disk_read(0, &mut bytes), Err(Failed));
        assert_eq!(rt; berth.disk_write(0, b"a"), Err(Failed));
        assert_eq!(rt; berth.disk_sync(), Err(Failed));
    }
    fs::remove_dir_all(&rt, folder.as_path())?;
    Ok(())
}
