//! The laws of checked plans, for callers' proofs.

ghost use Rattle.std.specs.Prelude.{ℕ, List, ◌++◌, filter, flat_map};
ghost use Rattle.answer_theory.specs.Bags.{SameBag};
ghost use Rattle.cat_reader.specs.declared.catalogue.Relation.{Relation as ARelation};
ghost use Rattle.join_trees.specs.Shapes.{Shape, nodes_of};
ghost use Rattle.plan_checker.specs.Checking.{IsAccepted};
ghost use Rattle.plan_checker.specs.Covers.{IsMade, is_own};
ghost use Rattle.plan_checker.specs.Filling.{default_plan};
ghost use Rattle.plan_checker.specs.Uses.{fragments_used, nodes_in, numbers_of};
ghost use Rattle.plan_reader.specs.declared.plan.Fragment.{Fragment as AFragment};
ghost use Rattle.query_core.specs.declared.query.Query.{Query as AQuery};
ghost use Rattle.query_reader.specs.Fitting.{FitsCatalogue};

/// The plan that names nothing is accepted for every query that fits its catalogue.
pub fn default_is_accepted()
    ensures { (query : AQuery) (catalogue : List ARelation) → FitsCatalogue catalogue query → IsAccepted query catalogue default_plan }
{}

/// Fragments that together with some finished ones are used once each, but for those on top, cover what they are made of:
/// the whole trees of the top ones have the nodes of all fragments and those of the finished ones. `made` gives the whole
/// tree of each number.
pub fn tops_cover_fragments()
    ensures { (made : ℕ → Shape) (fs : List AFragment) (finished tops : List ℕ) → IsMade made fs
        → SameBag (numbers_of fs ++ finished) (fragments_used (nodes_in fs) ++ tops)
        → SameBag (flat_map (λ n. nodes_of (made n)) tops) (filter is_own (nodes_in fs) ++ flat_map (λ n. nodes_of (made n)) finished) }
{}
