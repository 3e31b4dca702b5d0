//! Chunk names, and the numbers that stand in them and in records.

ghost use Rattle.std.specs.Prelude.{◌≡◌, Option};
ghost use Rattle.hr_base.specs.Names.{class_of_kind};

/// A partition. Each has maps, files and numbers of its own.
#[derive(Clone, Copy, Debug, PartialEq, Eq, PartialOrd, Ord, Hash)]
pub struct Partition(pub u8);

/// The number of a chunk among those of its partition and writer.
#[derive(Clone, Copy, Debug, PartialEq, Eq, PartialOrd, Ord, Hash)]
pub struct ChunkNo(pub u64);

/// The sequence number of a record in its partition.
#[derive(Clone, Copy, Debug, PartialEq, Eq, PartialOrd, Ord, Hash)]
pub struct Seq(pub u64);

/// Who writes a chunk, and which records it holds. The order is that of the letters that stand in a name's text.
#[derive(Clone, Copy, Debug, PartialEq, Eq, PartialOrd, Ord, Hash)]
pub enum Kind {
    /// The writer's tombstones.
    T,
    /// The collector's tombstones.
    U,
    /// The writer's values.
    V,
    /// The collector's values.
    W,
    /// The writer's prefix tombstones.
    X,
    /// The collector's prefix tombstones.
    Y,
}

/// Which records a chunk holds.
#[derive(Clone, Copy, Debug, PartialEq, Eq, PartialOrd, Ord, Hash)]
pub enum Class {
    Value,
    Tomb,
    Clear,
}

/// What names a chunk file. Names are ordered as their texts are.
#[derive(Clone, Copy, Debug, PartialEq, Eq, PartialOrd, Ord, Hash)]
pub struct ChunkName {
    pub partition: Partition,
    pub kind: Kind,
    pub number: ChunkNo,
}

/// What has a chunk name, where it tells that.
pub trait Named {
    ghost use Rattle.hr_base.specs.declared.name.ChunkName.{ChunkName};

    /// The name, or nothing where it is not told.
    ghost name: { Self → Option ChunkName };
}

/// Which records a chunk of this kind holds.
pub fn class_of(kind: Kind) -> Class
    ensures { result ≡ class_of_kind kind }
{
    match kind {
        Kind::V | Kind::W => Class::Value,
        Kind::T | Kind::U => Class::Tomb,
        Kind::X | Kind::Y => Class::Clear,
    }
}
