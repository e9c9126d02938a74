//! Laws of quoted texts. Each function is its contract, and does nothing.

ghost use Rattle.std.specs.Prelude.{◌≡◌, ℕ, ◌<◌, ◌↔◌, List, All, Ok, Err};
ghost use Rattle.cy_bytes.specs.Quoting.{quoted, unquoted, IsSpelling, HasFirstFault};

/// Reading what was written gives the bytes again.
pub fn unquote_undoes_quote()
    ensures { (bytes : List ℕ) → All (λ b. b < 256) bytes → unquoted (quoted bytes) ≡ Ok bytes }
{}

/// What is written spells the bytes.
pub fn quoted_text_is_a_spelling()
    ensures { (bytes : List ℕ) → All (λ b. b < 256) bytes → IsSpelling (quoted bytes) bytes }
{}

/// A text is read as bytes exactly where it spells them, and refused at a place exactly where that is
/// its first fault.
pub fn reading_is_spelling()
    ensures bytes { (text bytes : List ℕ) → IsSpelling text bytes ↔ (unquoted text ≡ Ok bytes) }
    ensures fault { (text : List ℕ) (place : ℕ) →
        HasFirstFault text place ↔ (unquoted text ≡ Err place) }
{}

/// A text spells one list of bytes at most.
pub fn one_reading()
    ensures { (text one other : List ℕ) → IsSpelling text one → IsSpelling text other → one ≡ other }
{}

/// A text has one first fault at most, and none where it spells bytes.
pub fn one_first_fault()
    ensures place { (text : List ℕ) (one other : ℕ) →
        HasFirstFault text one → HasFirstFault text other → one ≡ other }
    ensures none { (text bytes : List ℕ) (place : ℕ) →
        IsSpelling text bytes → ¬ HasFirstFault text place }
{}
