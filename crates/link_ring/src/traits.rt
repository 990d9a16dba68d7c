//! What a ring stands on.
ghost use Rattle.std.specs.Prelude.{◌≡◌, ◌≤◌, ℕ, true, List, length, IsTrue};
ghost use Rattle.link_ring.specs.Members.{AllDistinct};
ghost use Rattle.link_ring.specs.Ring.{LinkMap, AllKeys};
ghost use Rattle.link_ring.specs.Changes.{SetsNext, SetsPrev};

/// Keys with a next and a previous link each.
///
/// A type that keeps several kinds of links, each with a key type of its own, has an `impl` for each,
/// and the other kinds belong to its `rest`. The costs of the ring calls count calls of these methods,
/// so each is expected to take constant time.
///
/// An `impl` shows two laws: `one_key`, which the search finds for a derived `Eq`, and `limited`,
/// which `keys_limited` of `specs/Limits.antt` gives for keys that can be numbered.
pub trait Links<K: Copy + Eq> {
    // Which keys there are, and the two links of each.
    ghost links: { Self → LinkMap K };

    // What `rest` is.
    ghost Rest: { Type 0 };

    // All that is held beside these links.
    ghost rest: { Self → Rest };

    // The number of keys is at most this.
    ghost key_limit: { Self → ℕ };

    /// The key after `k`, which has to be one of the keys.
    fn next(&self, k: K) -> K
        requires { IsTrue ((links self.now).has k) }
        ensures { result ≡ (links self.now).next k };

    /// The key before `k`, which has to be one of the keys.
    fn prev(&self, k: K) -> K
        requires { IsTrue ((links self.now).has k) }
        ensures { result ≡ (links self.now).prev k };

    /// Makes `to` the key after `k`, which has to be one of the keys. Nothing else changes: `to`
    /// keeps its previous key.
    fn set_next(&mut self, k: K, to: K)
        requires { IsTrue ((links self.old).has k) }
        ensures sets { SetsNext (links self.old) (links self.new) k to }
        ensures rest { rest self.new ≡ rest self.old };

    /// Makes `to` the key before `k`, which has to be one of the keys. Nothing else changes: `to`
    /// keeps its next key.
    fn set_prev(&mut self, k: K, to: K)
        requires { IsTrue ((links self.old).has k) }
        ensures sets { SetsPrev (links self.old) (links self.new) k to }
        ensures rest { rest self.new ≡ rest self.old };

    // Keys that compare equal are one key.
    ghost one_key: { (a b : K) → K.eq a b ≡ true → a ≡ b };

    // No list of different keys is longer than `key_limit`.
    ghost limited: { (s : Self) (xs : List K) → AllDistinct xs → AllKeys (links s) xs → length xs ≤ key_limit s };
}
