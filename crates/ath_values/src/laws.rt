//! Laws of the numbers of values and environments, over the definitions alone: the contract of each is what is proved.

ghost use Rattle.std.specs.Prelude.{◌≡◌};
ghost use Rattle.ath_syntax.specs.Nodes.{Nodes, KeepsNodes};
ghost use Rattle.ath_terms.specs.Trees.{Trees, Grows};
ghost use Rattle.ath_values.specs.declared.value.EnvId.{EnvId as EnvNumber};
ghost use Rattle.ath_values.specs.declared.value.ValueId.{ValueId as ValueNumber};
ghost use Rattle.ath_values.specs.Nodes.{Stores, KeepsValues};
ghost use Rattle.ath_values.specs.Stands.{IsValue, IsEnv};
ghost use Rattle.ath_values.specs.Values.{EnvTree, ValueTree};

/// What stands for a value or an environment stands for it after phrases, terms, values and environments were added.
#[tactic(auto, using(crate::proofs::Growth::keep_value, crate::proofs::Growth::keep_env))]
pub fn values_are_kept()
    ensures values { (p q : Nodes) (s u : Trees) (e f : Stores) → KeepsNodes p q → Grows s u → KeepsValues e f → (i : ValueNumber) (t : ValueTree) → IsValue p s e i t → IsValue q u f i t }
    ensures envs { (p q : Nodes) (s u : Trees) (e f : Stores) → KeepsNodes p q → Grows s u → KeepsValues e f → (i : EnvNumber) (t : EnvTree) → IsEnv p s e i t → IsEnv q u f i t }
{}

/// A number stands for one value or environment at most.
#[tactic(auto, using(crate::proofs::One::one_value, crate::proofs::One::one_env))]
pub fn values_are_one()
    ensures values { (p : Nodes) (s : Trees) (e : Stores) (i : ValueNumber) (t u : ValueTree) → IsValue p s e i t → IsValue p s e i u → t ≡ u }
    ensures envs { (p : Nodes) (s : Trees) (e : Stores) (i : EnvNumber) (t u : EnvTree) → IsEnv p s e i t → IsEnv p s e i u → t ≡ u }
{}
