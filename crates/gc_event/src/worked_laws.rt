//! A worked cycle, step by step.

ghost use Rattle.std.specs.Prelude.{◌≡◌, [], ◌∷◌, false, true};
ghost use Rattle.hr_base.specs.declared.name.Kind.TheVariants.{T, V, W, X};
ghost use Rattle.gc_event.specs.Live.{lapsed, live_bytes, live_records, lives, stale, stale_prefix};
ghost use Rattle.gc_event.specs.Worked.{chunk, cleaned, clear, cleared, copied, hidden, key_a, key_b, outlived, put_a, put_b, removed, secured, told, tomb_a};

/// What is stale, live and retired in a worked cycle. A copy counts once it is secured, and what is removed is present until
/// its chunk is forgotten. A tombstone counts while an older value is
/// present, and a prefix tombstone while no newer one was told, dead or not.
pub fn a_worked_cycle()
    ensures stale { (stale told key_a ≡ 1) × (stale told key_b ≡ 0) × (stale secured key_a ≡ 1) }
    ensures removed { (stale removed key_a ≡ 0) × (stale hidden key_a ≡ 1) × (stale cleaned key_a ≡ 0) }
    ensures told { (live_records told (chunk V 1) ≡ put_b 2 ∷ []) × (live_records told (chunk V 2) ≡ put_a 3 ∷ []) }
    ensures bytes { (live_bytes told (chunk V 1) ≡ 26) × (live_bytes secured (chunk V 1) ≡ 0) }
    ensures copied { (live_records copied (chunk V 1) ≡ put_b 2 ∷ []) × (live_records copied (chunk W 1) ≡ []) }
    ensures secured { (live_records secured (chunk V 1) ≡ []) × (live_records secured (chunk W 1) ≡ put_b 2 ∷ []) }
    ensures hidden { (live_records hidden (chunk V 2) ≡ []) × (live_records hidden (chunk T 3) ≡ tomb_a 4 ∷ []) }
    ensures cleaned { (lives cleaned 4 ≡ false) × (lives cleaned 2 ≡ true) × (lapsed hidden cleaned ≡ 1) }
    ensures cleared { (stale_prefix told 1 ≡ 0) × (stale_prefix cleared 1 ≡ 3) × (live_records cleared (chunk V 2) ≡ []) }
    ensures outlived { (live_records cleared (chunk X 3) ≡ clear 4 ∷ []) × (live_records outlived (chunk X 3) ≡ []) × (live_records outlived (chunk X 4) ≡ []) }
{}
