//! Laws of the distance of checkpoints.

ghost use Rattle.std.specs.Prelude.{◌≡◌, ℕ, suc, ◌*◌, ◌/◌, ◌^◌, ◌<◌, ◌≤◌};
ghost use Rattle.cx_seek.specs.Interval.{interval};

/// The distance of checkpoints is 1,024 times the least power of two of which fewer than 64 are in a run's steps: so
/// there are at most 64 checkpoints.
pub fn checkpoints_are_few()
    ensures few { (n : ℕ) → n < 2 ^ 64 → n / interval n < 64 }
    ensures power { (n : ℕ) → (k : ℕ) × (interval n ≡ 1024 * 2 ^ k) }
    ensures least { (n k : ℕ) → n / (1024 * 2 ^ k) < 64 → interval n ≤ 1024 * 2 ^ k }
{}

/// While a run goes on, the distance of its checkpoints stays until there are 64 of it in the steps so far, and is
/// doubled then.
pub fn distance_is_doubled_at_64()
    ensures first { interval 0 ≡ 1024 }
    ensures stays { (n : ℕ) → suc n < 64 * interval n → interval (suc n) ≡ interval n }
    ensures doubles { (n : ℕ) → suc n < 2 ^ 64 → suc n ≡ 64 * interval n → interval (suc n) ≡ 2 * interval n }
    ensures most { (n : ℕ) → n < 2 ^ 64 → n < 64 * interval n }
{}
