/// A write that was made: its place and length, the bytes that it overwrote, and the length of the content before it.
#[derive(Drop)]
pub struct Wrote {
    pub at: u64,
    pub len: u64,
    pub lost: Vec<u8>,
    pub was: u64,
}

#[derive(Drop)]
pub struct CutOff {
    pub len: u64,
    pub lost: Vec<u8>,
}

/// A call that changed something, or a sync.
#[derive(Drop)]
pub enum BerthCall {
    WroteRegion(Wrote),
    CutRegion(CutOff),
    WroteDisk(Wrote),
    SyncedDisk,
}
