//! What holds of refusals. Each law is the contract of a function that does nothing.

ghost use Rattle.std.specs.Prelude.{◌≡◌, ℕ};
ghost use Rattle.dir_files.specs.Images.{Image};
ghost use Rattle.crash_law.specs.Restarts.{IsRestartable};
ghost use Rattle.restart_load.specs.Refusals.{IsPrintable, IsRefusedFor, SpeaksOfContent};
ghost use Rattle.restart_load.specs.declared.refusal.RestartRefusal.{RestartRefusal};

/// Of an image at most one thing is told, where the names in what is told can be printed: names that a file may not
/// have may share a text, and so a place in the order.
pub fn one_refusal()
    ensures { (image : Image) (partitions : ℕ) (a b : RestartRefusal)
        → IsRefusedFor image partitions a → IsRefusedFor image partitions b
        → SpeaksOfContent a → SpeaksOfContent b → IsPrintable a → IsPrintable b → a ≡ b }
{}

/// An image that restarts is not refused for its content.
pub fn a_restartable_image_is_not_refused()
    ensures { (image : Image) (partitions : ℕ) (e : RestartRefusal)
        → IsRestartable image partitions → IsRefusedFor image partitions e → SpeaksOfContent e → ⊥ }
{}
