use hash_ring::Point;

/// Who owns a hash, by one view.
#[derive(Clone, Copy)]
pub struct Route {
    /// The version of the view.
    pub version: u64,
    /// The point that owns the hash in that view; `None` where the view has no Active silo.
    pub owner: Option<Point>,
}
