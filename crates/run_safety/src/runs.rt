//! A whole run.

ghost use Rattle.std.specs.Prelude.{Bool, List, Option};
ghost use Rattle.cluster_types.specs.declared.cluster.Cluster.{Cluster as ClusterOf};
ghost use Rattle.cluster_types.specs.declared.journal.Answer.{Answer as AnswerOf};
ghost use Rattle.cluster_types.specs.declared.journal.Event.{Event as EventOf};
ghost use Rattle.cluster_types.specs.declared.journal.Promotion.{Promotion as PromotionOf};
ghost use Rattle.cluster_types.specs.Safety.{IsAtRest, IsSafeRun};
ghost use Rattle.cluster_types.specs.Valid.{IsValid};

/// A run of a valid cluster from a journal in order with nothing in flight, as each first journal is, is safe all the way: between transitions it is so
/// again, and wherever it stands amid one, whatever came, all of the promises hold, and a complete transition ends in its targets.
pub fn runs_are_safe()
    ensures { (c : ClusterOf) (promotions : List PromotionOf) (whole : Bool) (events : List EventOf) (rest : Option (List AnswerOf))
        → IsValid c → IsAtRest events → IsSafeRun c promotions whole events rest }
{}
