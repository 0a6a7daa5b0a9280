// Laws that callers cite.
ghost use Rattle.std.specs.Prelude.{◌≡◌, ℕ, ◌<◌, List, Bool, false, true, length, map, if◌then◌else◌};
ghost use Rattle.bool_expr.specs.declared.expr.Gate.{Gate};
ghost use Rattle.bool_expr.specs.Expression.{Expression, val, gate_value, bit, IsOver as IsWithin};
ghost use Rattle.bdd_core.specs.Asked.{denoted};
ghost use Rattle.bdd_core.specs.Branching.{truth_at, held};
ghost use Rattle.bdd_core.specs.Diagram.{gate_of};
ghost use Rattle.bdd_core.specs.Truths.{Truths, truths, IsCountOf, IsOver};

/// A set of functions has one count, and where it is over a budget, the count is more than the budget.
pub fn one_count()
    ensures one { (functions : List Truths) (m n : ℕ) → IsCountOf functions m → IsCountOf functions n → m ≡ n }
    ensures over { (functions : List Truths) (n budget : ℕ) → IsCountOf functions n → IsOver functions budget → budget < n }
{}

/// A function's truth list has its values.
pub fn truths_is_value()
    ensures { (vars : ℕ) (f : List Bool → Bool) (w : List Bool) → length w ≡ vars → truth_at (truths vars f) w ≡ f w }
{}

/// A gate of two functions has the gate's values.
pub fn gate_is_value()
    ensures { (vars : ℕ) (g : Gate) (f h : List Bool → Bool)
        → gate_of g (truths vars f) (truths vars h) ≡ truths vars (λ w. gate_value g (f w) (h w)) }
{}

/// A function has the values of its two halves by a variable.
pub fn held_is_value()
    ensures { (t : Truths) (k : ℕ) (w : List Bool) → k < length w
        → truth_at t w ≡ (if bit w k then truth_at (held k true t) w else truth_at (held k false t) w) }
{}

/// What an expression asks for is the truth list of its values.
pub fn denoted_is_value()
    ensures { (vars : ℕ) (bound : List (List Bool → Bool)) (e : Expression) → IsWithin e (length bound)
        → denoted vars (map (λ f. truths vars f) bound) e ≡ truths vars (λ w. val e (map (λ f. f w) bound)) }
{}
