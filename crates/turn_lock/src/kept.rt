//! The values that a turn keeps.
ghost use Rattle.std.specs.Prelude.{◌≡◌, List, length};

/// A value that represents a list of entries and has an origin, as an open journal does.
///
/// Entries are added at the end, one at each commit, and the origin never changes. Both are plain data that exist only
/// in contracts.
pub trait Kept: Send + Drop {
    /// What one commit adds.
    type Entry;

    /// What the value started from.
    type Origin;

    /// The entries that the value represents, oldest first.
    ghost list: { Self → List Self.Entry };

    /// Where the value comes from.
    ghost origin: { Self → Self.Origin };

    /// The number of entries.
    fn count(&self) -> u64
        ensures { result ≡ length (list self.now) };
}
