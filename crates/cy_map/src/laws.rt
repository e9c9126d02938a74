//! Laws of mapping. Each function is its contract, and does nothing.
ghost use Rattle.std.specs.Prelude.{◌≡◌, ◌≢◌, ◌≤◌, ℕ, List, ◌∷◌, ◌++◌, length, All, IsSome, IsTrue, Some};
ghost use Rattle.cy_map.specs.declared.rule.Rule.{Rule};
ghost use Rattle.cy_map.specs.Patterns.{exact_path};
ghost use Rattle.cy_map.specs.Mapping.{is_prefix_for, mapped};

/// A path that an exact pattern equals finds that rule, whatever other rules stand there.
pub fn exact_rule_is_found()
    ensures { (before after : List Rule) (rule : Rule) →
        IsSome (exact_path rule.pattern) → All (λ other. other.pattern ≢ rule.pattern) before →
        mapped (before ++ rule ∷ after) rule.pattern ≡ Some rule }
{}

/// The rule that is found by its prefix is no shorter than any other prefix that the path is under.
pub fn longest_prefix_is_found()
    ensures { (rules : List Rule) (path : List ℕ) (rule : Rule) →
        mapped rules path ≡ Some rule → IsTrue (is_prefix_for path rule) →
        All (λ other. IsTrue (is_prefix_for path other) → length other.pattern ≤ length rule.pattern) rules }
{}
