//! What holds of scripts and their lines, as contracts of functions that do nothing.

ghost use Rattle.std.specs.Prelude.{◌≡◌, ◌≤◌, ◌++◌, List, ℕ, length};
ghost use Rattle.txn_lines.specs.declared.line.Line.{Line};
ghost use Rattle.txn_lines.specs.declared.script.Why.{Why};
ghost use Rattle.txn_lines.specs.Grammar.{IsLine};
ghost use Rattle.txn_lines.specs.Text.{most_bytes, IsScript, IsFirstBad};

/// Bytes spell one line at most.
pub fn one_line()
    ensures { (bytes : List ℕ) (a b : Line) → IsLine bytes a → IsLine bytes b → a ≡ b }
{}

/// Bytes stand for one script, or have one first bad line with one first reason, and never both.
pub fn one_reading()
    ensures script { (bytes : List ℕ) (a b : List Line) → IsScript bytes a → IsScript bytes b → a ≡ b }
    ensures bad { (bytes : List ℕ) (m n : ℕ) (x y : Why) → IsFirstBad bytes m x → IsFirstBad bytes n y → (m ≡ n) × (x ≡ y) }
    ensures apart { (bytes : List ℕ) (lines : List Line) (n : ℕ) (why : Why) → IsScript bytes lines → IsFirstBad bytes n why → ⊥ }
{}

/// Bytes that are more than 65537 lines of 4096 bytes need stand for no script, and what follows them changes nothing
/// of their first bad line.
pub fn long_text()
    ensures none { (bytes : List ℕ) (lines : List Line) → most_bytes ≤ length bytes → IsScript bytes lines → ⊥ }
    ensures same { (bytes more : List ℕ) (n : ℕ) (why : Why) → most_bytes ≤ length bytes → IsFirstBad bytes n why → IsFirstBad (bytes ++ more) n why }
{}
