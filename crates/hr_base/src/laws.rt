//! What is true of all chunk names, and the limits as numbers. Each law is the contract of a function that does nothing.

ghost use Rattle.std.specs.Prelude.{◌≡◌, ◌^◌, length};
ghost use Rattle.std.specs.Ordering.{nat_cmp};
ghost use Rattle.std.specs.Cmp.Lexicographic.{slice_cmp};
ghost use Rattle.hr_base.specs.declared.name.ChunkName.{ChunkName};
ghost use Rattle.hr_base.specs.declared.limits.TheConstants.{CHUNK_NO_END, MAX_CHUNK_LIMIT, MAX_FILE_LEN, MAX_KEY_LEN, MAX_PARTITIONS, MAX_PERCENT, MAX_RECORD_LEN, MAX_SCRIPT_LEN, MAX_VALUE_LEN, MIN_CHUNK_LIMIT, SEQ_END};
ghost use Rattle.hr_base.specs.Names.{IsChunkName, name_text};

use crate::name::ChunkName;

/// A text is that of one name at most.
pub fn no_two_names_share_a_text()
    ensures { (a b : ChunkName) → IsChunkName a → IsChunkName b → name_text a ≡ name_text b → a ≡ b }
{}

/// Each text of a name has 28 bytes.
pub fn every_text_has_28_bytes()
    ensures { (name : ChunkName) → IsChunkName name → length (name_text name) ≡ 28 }
{}

/// Names are ordered as their texts: what sorts names sorts their texts.
pub fn names_are_ordered_as_their_texts()
    ensures { (a b : ChunkName) → IsChunkName a → IsChunkName b
        → ⟦<ChunkName as Ord>⟧.cmp a b ≡ slice_cmp nat_cmp (name_text a) (name_text b) }
{}

/// The limits, as `docs/FORMATS.md` states them.
pub fn limits_as_stated()
    ensures key { MAX_KEY_LEN ≡ 65535 }
    ensures value { MAX_VALUE_LEN ≡ 1048576 }
    ensures rec { MAX_RECORD_LEN ≡ 1114135 }
    ensures partitions { MAX_PARTITIONS ≡ 64 }
    ensures least_chunk { MIN_CHUNK_LIMIT ≡ 4096 }
    ensures most_chunk { MAX_CHUNK_LIMIT ≡ 67108864 }
    ensures file { MAX_FILE_LEN ≡ 134217728 }
    ensures script { MAX_SCRIPT_LEN ≡ 67108864 }
    ensures percent { MAX_PERCENT ≡ 100 }
    ensures seq { SEQ_END ≡ 2 ^ 63 }
    ensures chunk_no { CHUNK_NO_END ≡ 2 ^ 48 }
{}
