// The version of a region: what a drain writes, and what a start adopts.
ghost use Rattle.std.specs.Prelude.{◌≡◌};
ghost use Rattle.region_layout.specs.Region.{allows, reads};

use column_bytes::Kind;

/// The version that a drain writes.
pub const LAYOUT: u32 = 3;

/// Whether a start adopts images of this version.
pub fn reads(version: u32) -> bool
    ensures { result ≡ reads version }
{
    version == 2 || version == LAYOUT
}

/// Whether an image of this version may have columns of this kind.
pub fn allows(version: u32, kind: Kind) -> bool
    ensures { result ≡ allows version kind }
{
    match kind {
        Kind::Ints | Kind::Texts => true,
        Kind::Sets => version > 2,
    }
}
