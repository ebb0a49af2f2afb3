// A file of a folder, which may not be there yet.
ghost use Rattle.std.specs.Prelude.{◌+◌, ◌^◌, ◌<◌, length, IfOk};
ghost use Rattle.std.specs.Io.{ReadsAtMost};

use crate::access::Access;
use crate::whole::LIMIT;
use berth_face::Failed;
use std::alloc::AllocError;
use std::fs::{File, OpenOptions, TryLockError};
use std::io::ErrorKind;
use std::mem;
use std::os::unix::fs::FileExt;

/// The number of bytes that are written again at once.
const PIECE: usize = 4096;

/// A file of a folder, which is made at its first write. One that is not there holds nothing.
#[derive(Drop)]
pub(crate) struct Kept {
    rt: HostRuntime,
    folder: String,
    path: String,
    access: Access,
    file: Option<File>,
    /// Whether a call found no file, and no later call failed.
    is_missing: bool,
    /// Whether the folder's own entry of the file was synced since the file was opened.
    is_entered: bool,
    /// The first place that may have been written since the last sync that succeeded, or `LIMIT`.
    unsynced: u64,
    /// Whether a sync failed, and none succeeded since.
    is_doubted: bool,
}

impl Kept {
    pub(crate) fn new(
        rt: HostRuntime,
        folder: &str,
        path: String,
        access: Access,
    ) -> Result<Kept, AllocError> {
        let folder = format!(in rt.alloc(); "{folder}")?;
        Ok(Kept {
            rt,
            folder,
            path,
            access,
            file: None,
            is_missing: false,
            is_entered: false,
            unsynced: 0,
            is_doubted: false,
        })
    }

    pub(crate) fn len(&mut self) -> Result<u64, Failed>
        ensures bound { IfOk result (λ n. n < 2 ^ 63) }
    {
        let Some(file) = self.found()? else {
            return Ok(0);
        };
        match len_of(file) {
            Ok(len) if len < LIMIT => Ok(len),
            Ok(_) | Err(_) => Err(Failed),
        }
    }

    pub(crate) fn read_some(&mut self, at: u64, buf: &mut [u8]) -> Result<usize, Failed>
        ensures bound { ReadsAtMost result buf.new }
    {
        match self.found()? {
            Some(file) => read_some(file, at, buf),
            None => Ok(0),
        }
    }

    /// Writes all of a piece.
    pub(crate) fn write_all(&mut self, at: u64, bytes: &[u8]) -> Result<(), Failed>
        requires { at + length bytes.now < 2 ^ 63 }
    {
        let file = self.made(at)?;
        file.write_all_at(bytes, at).map_err(|_| Failed)
    }

    /// Writes all of a piece between two syncs, so it reaches the device after all that was written before.
    pub(crate) fn write_synced(&mut self, at: u64, bytes: &[u8]) -> Result<(), Failed>
        requires { at + length bytes.now < 2 ^ 63 }
    {
        self.made(at)?;
        self.sync()?;
        self.write_all(at, bytes)?;
        self.sync()
    }

    /// Lengthens the file by zeros. A length not above the present one changes nothing.
    pub(crate) fn lengthen(&mut self, len: u64) -> Result<(), Failed>
        requires { len < 2 ^ 63 }
    {
        let file = self.made(len)?;
        let now = len_of(file)?;
        if now < len {
            resize(file, len)?;
        }
        self.unsynced = self.unsynced.min(now);
        Ok(())
    }

    /// Cuts the file. A length not below the present one changes nothing.
    pub(crate) fn shorten(&mut self, len: u64) -> Result<(), Failed> {
        if matches!(self.access, Access::Look) {
            return Err(Failed);
        }
        let Some(file) = self.found()? else {
            return Ok(());
        };
        let now = len_of(file)?;
        if len < LIMIT && len < now {
            resize(file, len)?;
        }
        Ok(())
    }

    /// Syncs the file, and the first time its folder too, without which the file itself may be lost.
    pub(crate) fn sync(&mut self) -> Result<(), Failed> {
        if self.found()?.is_none() {
            return Ok(());
        }
        self.sync_open()?;
        if !self.is_entered {
            sync_folder(&self.rt, self.folder.as_str())?;
            self.is_entered = true;
        }
        Ok(())
    }

    /// The open file; None if it is not there.
    fn found(&mut self) -> Result<Option<&mut File>, Failed> {
        if self.file.is_none() {
            self.file = self.open(false)?;
        }
        self.mend()?;
        Ok(self.file.as_mut())
    }

    /// The open file, to be written from this place on. It makes one that is not there.
    fn made(&mut self, at: u64) -> Result<&mut File, Failed> {
        if matches!(self.access, Access::Look) {
            return Err(Failed);
        }
        if self.file.is_none() {
            self.file = self.open(true)?;
        }
        self.mend()?;
        self.unsynced = self.unsynced.min(at);
        self.file.as_mut().ok_or(Failed)
    }

    /// Opens the file; to write, it also locks and syncs it. None if there is no file. A file that was found missing
    /// has no bytes, unless another program has made it since. The sync gives the device what an earlier program wrote
    /// before it ended without a sync.
    fn open(&mut self, create: bool) -> Result<Option<File>, Failed> {
        let was_missing = mem::replace(&mut self.is_missing, false);
        if matches!(self.access, Access::Look) {
            return look_at(&self.rt, self.path.as_str());
        }
        let Some(mut file) = find(&self.rt, self.path.as_str(), create)? else {
            self.is_missing = true;
            return Ok(None);
        };
        lock(&file)?;
        if was_missing && len_of(&file)? > 0 {
            return Err(Failed);
        }
        self.is_doubted = sync(&mut file).is_err();
        Ok(Some(file))
    }

    /// After a sync that failed, writes again all since the last one that succeeded, and syncs it.
    /// Linux takes bytes that it could not write for written, so the next sync alone could succeed
    /// while the device lacks bytes that reads give.
    fn mend(&mut self) -> Result<(), Failed> {
        if !self.is_doubted {
            return Ok(());
        }
        match self.file.as_ref() {
            Some(file) if self.unsynced < LIMIT => write_again(file, self.unsynced)?,
            _ => {}
        }
        self.sync_open()
    }

    /// Syncs the open file.
    fn sync_open(&mut self) -> Result<(), Failed> {
        let Some(file) = self.file.as_mut() else {
            return Ok(());
        };
        self.is_doubted = true;
        sync(file)?;
        self.is_doubted = false;
        self.unsynced = LIMIT;
        Ok(())
    }
}

fn len_of(file: &File) -> Result<u64, Failed> {
    match file.metadata() {
        Ok(found) => Ok(found.len()),
        Err(_) => Err(Failed),
    }
}

/// Reads once. A signal may interrupt a read again and again.
fn read_some(file: &File, at: u64, buf: &mut [u8]) -> Result<usize, Failed>
    ensures bound { ReadsAtMost result buf.new }
{
    for _ in 0..u64::MAX {
        match file.read_at(buf, at) {
            Ok(count) => return Ok(count),
            Err(error) if error.kind() == ErrorKind::Interrupted => {}
            Err(_) => return Err(Failed),
        }
    }
    Err(Failed)
}

fn resize(file: &mut File, len: u64) -> Result<(), Failed>
    requires { len < 2 ^ 63 }
{
    file.set_len(len).map_err(|_| Failed)
}

/// Gives the file's bytes and its length to the device.
fn sync(file: &mut File) -> Result<(), Failed> {
    file.sync_all().map_err(|_| Failed)
}

/// Writes the file's bytes again from a place on, as reads give them.
fn write_again(file: &File, from: u64) -> Result<(), Failed> {
    let mut at = from;
    let mut piece = [0; PIECE];
    for _ in 0..u64::MAX {
        let count = read_some(file, at, &mut piece)?;
        if count == 0 {
            return Ok(());
        }
        file.write_all_at(&piece[..count], at).map_err(|_| Failed)?;
        at = at.saturating_add(count as u64);
    }
    Err(Failed)
}

/// Opens a file for reads and writes, and may make one that is not there. None is a file that is not there.
fn find(rt: &HostRuntime, path: &str, create: bool) -> Result<Option<File>, Failed> {
    let mut how = OpenOptions::new();
    match how.read(true).write(true).create(create).open(rt, path) {
        Ok(file) => Ok(Some(file)),
        Err(error) if error.kind() == ErrorKind::NotFound => Ok(None),
        Err(_) => Err(Failed),
    }
}

/// Opens a file for reads. None is a file that is not there.
fn look_at(rt: &HostRuntime, path: &str) -> Result<Option<File>, Failed> {
    match File::open(rt, path) {
        Ok(file) => match file.metadata() {
            // (a folder can be opened too)
            Ok(found) if found.is_file() => Ok(Some(file)),
            _ => Err(Failed),
        },
        Err(error) if error.kind() == ErrorKind::NotFound => Ok(None),
        Err(_) => Err(Failed),
    }
}

/// Locks an open file until it is closed. Fails if another program has it locked.
fn lock(file: &File) -> Result<(), Failed> {
    match file.try_lock() {
        Err(TryLockError::WouldBlock) => Err(Failed),
        // A file system without locks is passed over.
        Ok(()) | Err(TryLockError::Error(_)) => Ok(()),
    }
}

/// Gives the folder's entries to the device.
fn sync_folder(rt: &HostRuntime, folder: &str) -> Result<(), Failed> {
    match File::open(rt, folder) {
        Ok(mut entries) => sync(&mut entries),
        Err(_) => Err(Failed),
    }
}
