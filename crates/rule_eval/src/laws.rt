//! What the grammar of rules promises. There is nothing to call.

ghost use Rattle.std.specs.Prelude.{◌≡◌, ℕ, List};
ghost use Rattle.rule_eval.specs.Rules.{RuleText, AreRules, IsFirstBadRule};

/// Bytes are read in one way: as these rules with this rest, and as no others.
pub fn one_reading_of_rules()
    ensures { (bytes rest other_rest : List ℕ) (rules others : List RuleText)
        → AreRules bytes rules rest → AreRules bytes others other_rest → (rules ≡ others) × (rest ≡ other_rest) }
{}

/// Bytes have at most one first line that is no rule, and those that have one are no rules.
pub fn one_first_bad_rule()
    ensures same { (bytes : List ℕ) (k l : ℕ) → IsFirstBadRule bytes k → IsFirstBadRule bytes l
        → k ≡ l }
    ensures no_rules { (bytes rest : List ℕ) (l : ℕ) (rules : List RuleText)
        → IsFirstBadRule bytes l → ¬ AreRules bytes rules rest }
{}
