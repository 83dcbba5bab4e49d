//! What holds at every moment of a transition of a plan, whatever ends, fails, times out, is lost, returns or changes quorum, in any order.

ghost use Rattle.std.specs.Prelude.{◌≡◌, ◌≢◌, ◌<◌, ℕ, Bool, false, List, [], ◌∷◌, ◌++◌, Option, length};
ghost use Rattle.cluster_types.specs.declared.journal.Action.TheVariants as action;
ghost use Rattle.cluster_types.specs.declared.journal.Answer.{Answer as AnswerOf};
ghost use Rattle.cluster_types.specs.declared.journal.Event.{Event as EventOf};
ghost use Rattle.cluster_types.specs.declared.journal.Event.TheVariants as event;
ghost use Rattle.cluster_types.specs.declared.journal.Promotion.{Promotion as PromotionOf};
ghost use Rattle.cluster_types.specs.declared.leaf.Op.TheVariants as op;
ghost use Rattle.cluster_types.specs.declared.leaf.Role.{Role as RoleOf};
ghost use Rattle.cluster_types.specs.declared.placement.Placed.{Placed as PlacedOf};
ghost use Rattle.cluster_types.specs.Fields.{is_cloned, promoted_copies};
ghost use Rattle.cluster_types.specs.May.{may_be_running, may_be_promoted};
ghost use Rattle.cluster_types.specs.Safety.{IsSafe, MigrationsAlone, NoForbiddenNeighbour, NoSecondCopy, NoSecondPromotion};
ghost use Rattle.cluster_types.specs.Steps.{GoesBySteps, Transition, journal};
ghost use Rattle.run_safety.specs.OfPlans.{IsOfPlan};

/// No copy too many: where a resource is started or promoted on a node, fewer other nodes than it has copies may still run it. A resource that isn't
/// cloned is never started while any other node may still run it.
pub fn no_second_copy()
    ensures copies { (promotions : List PromotionOf) (placed : PlacedOf) (t : Transition) (whole : Bool) (rest left : Option (List AnswerOf)) (later : List EventOf)
        → IsOfPlan promotions placed t → GoesBySteps t whole [] rest later left → NoSecondCopy t later }
    ensures plain { (promotions : List PromotionOf) (placed : PlacedOf) (t : Transition) (whole : Bool) (rest left : Option (List AnswerOf)) (later : List EventOf)
        (before after : List EventOf) (k r n interval m : ℕ) (held : RoleOf) → IsOfPlan promotions placed t → GoesBySteps t whole [] rest later left
        → later ≡ before ++ event.Begin k (action.Operation op.Start r n interval held) ∷ after → is_cloned t.cluster r ≡ false
        → m < length t.cluster.nodes → m ≢ n → may_be_running t.cluster r m (journal t before) ≡ false }
{}

/// No promoted copy too many: where a resource is promoted on a node, it may be promoted on fewer other nodes than it has promoted copies. One that has a
/// single promoted copy is never promoted while it may still be promoted on any other node.
pub fn no_second_promotion()
    ensures copies { (promotions : List PromotionOf) (placed : PlacedOf) (t : Transition) (whole : Bool) (rest left : Option (List AnswerOf)) (later : List EventOf)
        → IsOfPlan promotions placed t → GoesBySteps t whole [] rest later left → NoSecondPromotion t later }
    ensures single { (promotions : List PromotionOf) (placed : PlacedOf) (t : Transition) (whole : Bool) (rest left : Option (List AnswerOf)) (later : List EventOf)
        (before after : List EventOf) (k r n interval m : ℕ) (held : RoleOf) → IsOfPlan promotions placed t → GoesBySteps t whole [] rest later left
        → later ≡ before ++ event.Begin k (action.Operation op.Promote r n interval held) ∷ after → promoted_copies t.cluster r ≡ 1
        → m < length t.cluster.nodes → m ≢ n → may_be_promoted t.cluster r m (journal t before) ≡ false }
{}

/// No forbidden neighbour: where a colocation of -INFINITY keeps two resources apart, the one is never given its role on a node where the other may still
/// hold its own.
pub fn no_forbidden_neighbour()
    ensures { (promotions : List PromotionOf) (placed : PlacedOf) (t : Transition) (whole : Bool) (rest left : Option (List AnswerOf)) (later : List EventOf)
        → IsOfPlan promotions placed t → GoesBySteps t whole [] rest later left → NoForbiddenNeighbour t later }
{}

/// A live migration begins only where no node but its source may run the resource, and is taken in only where none but its source and its target may.
pub fn migrations_have_their_leaf_alone()
    ensures { (promotions : List PromotionOf) (placed : PlacedOf) (t : Transition) (whole : Bool) (rest left : Option (List AnswerOf)) (later : List EventOf)
        → IsOfPlan promotions placed t → GoesBySteps t whole [] rest later left → MigrationsAlone t later }
{}

/// All of this together, and: no action begins before all that must precede it have succeeded; an answer is taken only when something is in flight and no
/// action may begin; what begins is the action of its number; each number begins once at most; none begins after an abort; and when nothing
/// aborted and the transition has ended, all have succeeded.
pub fn transitions_are_safe()
    ensures { (promotions : List PromotionOf) (placed : PlacedOf) (t : Transition) (whole : Bool) (rest left : Option (List AnswerOf)) (later : List EventOf)
        → IsOfPlan promotions placed t → GoesBySteps t whole [] rest later left → IsSafe t later }
{}
