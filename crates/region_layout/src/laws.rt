// Laws of heads and of images.
ghost use Rattle.std.specs.Prelude.{◌≡◌, ◌≢◌, ℕ, List};
ghost use Rattle.region_head.specs.declared.head.Head.TheVariants.{Version};
ghost use Rattle.berth_face.specs.Berth.{IsClosed};
ghost use Rattle.region_head.specs.Head.{head_of, version_of};
ghost use Rattle.region_layout.specs.Images.{TableImage};
ghost use Rattle.region_layout.specs.Region.{IsAdoptable};

/// A head tells a version if and only if the region is not closed.
pub fn one_head()
    ensures closed { (region : List ℕ) → IsClosed region → (version : ℕ) → head_of region ≢ Version version }
    ensures version { (region : List ℕ) → (IsClosed region → ⊥) → head_of region ≡ Version (version_of region) }
{}

/// A region is the image of at most one list of tables and one end of the log. A closed region is no image.
pub fn one_reading()
    ensures tables { (region : List ℕ) (s t : List TableImage) (d e : ℕ) → IsAdoptable region s d
        → IsAdoptable region t e → s ≡ t }
    ensures log_end { (region : List ℕ) (s t : List TableImage) (d e : ℕ) → IsAdoptable region s d
        → IsAdoptable region t e → d ≡ e }
    ensures closed { (region : List ℕ) (s : List TableImage) (d : ℕ) → IsClosed region → IsAdoptable region s d → ⊥ }
{}
