//! Laws of scripts: how many ways there are to read one, and that reading and printing undo each other.

ghost use Rattle.std.specs.Prelude.{◌≡◌, ◌≤◌, ◌^◌, ◌++◌, ◌∷◌, ℕ, List, [], codes};
ghost use Rattle.script_text.specs.declared.line.Line.{Line};
ghost use Rattle.script_text.specs.declared.line.Mode.{Mode};
ghost use Rattle.script_text.specs.Lines.{IsFirstBad, IsLine, IsScript, line_text, lines_text, with_last_end};

/// Two readings of the same bytes are equal.
pub fn one_reading()
    ensures { (mode : Mode) (partitions : ℕ) (bytes : List ℕ) (a b : List Line) → partitions ≤ 2 ^ 64
        → IsScript mode partitions bytes a → IsScript mode partitions bytes b → a ≡ b }
{}

/// What is a script has no first bad line.
pub fn bad_or_script()
    ensures { (mode : Mode) (partitions : ℕ) (bytes : List ℕ) (lines : List Line) (number : ℕ)
        → IsScript mode partitions bytes lines → IsFirstBad mode partitions bytes number → ⊥ }
{}

/// The first bad line of bytes has one number.
pub fn one_first_bad()
    ensures { (mode : Mode) (partitions : ℕ) (bytes : List ℕ) (m n : ℕ)
        → IsFirstBad mode partitions bytes m → IsFirstBad mode partitions bytes n → m ≡ n }
{}

/// What is printed of a line that keeps the grammar is a script of just that line.
pub fn a_printed_line_is_read()
    ensures { (mode : Mode) (partitions : ℕ) (line : Line) → partitions ≤ 2 ^ 64
        → IsLine mode partitions line
        → IsScript mode partitions (line_text line ++ codes "\n") (line ∷ []) }
{}

/// The lines of a script printed again are its bytes, with a last line's end added where it lacked.
pub fn a_read_script_printed()
    ensures { (mode : Mode) (partitions : ℕ) (bytes : List ℕ) (lines : List Line)
        → IsScript mode partitions bytes lines → lines_text lines ≡ with_last_end bytes }
{}
