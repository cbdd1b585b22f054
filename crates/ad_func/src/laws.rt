ghost use Rattle.std.specs.Prelude.{◌≡◌, ℕ, List, Some};
ghost use Rattle.ad_func.specs.declared.function.Function.{Function};
ghost use Rattle.ad_func.specs.Function.{function_name, function_named};
ghost use Rattle.ad_func.specs.Laws.{NamesFunction};

/// A text names a function exactly where it is its name without case. Does nothing.
#[tactic(auto, using(crate::proofs::FunctionLemmas::names_function))]
pub fn names_are_without_case()
    ensures { (x : List ℕ) (f : Function) → NamesFunction x f }
{}

/// Each function is found by its name. Does nothing.
#[tactic(auto, using(crate::proofs::FunctionLemmas::each_is_found))]
pub fn each_is_named()
    ensures { (f : Function) → function_named (function_name f) ≡ Some f }
{}
