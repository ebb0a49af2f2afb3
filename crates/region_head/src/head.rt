// The first 16 bytes of a region.
ghost use Rattle.std.specs.Prelude.{◌≡◌, ◌∷◌};
ghost use Rattle.region_head.specs.Head.{head_of, head_bytes};

/// The state of a region by its head.
#[derive(Clone, Copy, PartialEq, Eq)]
pub enum Head {
    /// There are fewer than 16 bytes.
    NoHead,
    /// The flag is this byte, and not 1.
    Closed(u8),
    /// The flag is 1, and this is the version.
    Version(u32),
}

/// Reads the head. It looks at the flag and the version alone, not at the letters.
pub fn read_head(bytes: &[u8]) -> Head
    ensures { result ≡ head_of bytes.now }
{
    if bytes.len() < 16 {
        return Head::NoHead;
    }
    if bytes[0] != 1 {
        return Head::Closed(bytes[0]);
    }
    Head::Version(u32::from_le_bytes([bytes[4], bytes[5], bytes[6], bytes[7]]))
}

/// The 15 bytes that follow the flag in an open head.
pub fn head_rest(version: u32, directory: u64) -> [u8; 15]
    ensures { 1 ∷ result ≡ head_bytes version directory }
{
    let [v0, v1, v2, v3] = version.to_le_bytes();
    let [d0, d1, d2, d3, d4, d5, d6, d7] = directory.to_le_bytes();
    [
        b'S', b'C', b'B', v0, v1, v2, v3, d0, d1, d2, d3, d4, d5, d6, d7,
    ]
}
