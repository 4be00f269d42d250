//! What has a name and a version.
ghost use Rattle.std.specs.Prelude.{◌≡◌, ℕ, List};

use crate::versions::Version;

/// Something with a name and a version, as a package of an index.
pub trait Named {
    ghost name_of: { Self → List ℕ };

    ghost version_of: { Self → List ℕ };

    /// Lends the name.
    fn name(&self) -> &[u8]
        ensures { result.now ≡ name_of self.now };

    /// Lends the version.
    fn version(&self) -> &Version
        ensures { result.now ≡ version_of self.now };
}
