//! A law of which runs there are. It is a function that does nothing, and whose contract is the law.

ghost use Rattle.std.specs.Prelude.{◌⊎◌, true, false, List};
ghost use Rattle.cluster_types.specs.declared.cluster.Cluster.{Cluster as ClusterOf};
ghost use Rattle.cluster_types.specs.declared.journal.Answer.{Answer as AnswerOf};
ghost use Rattle.cluster_types.specs.declared.journal.Event.{Event as EventOf};
ghost use Rattle.cluster_types.specs.declared.journal.Promotion.{Promotion as PromotionOf};
ghost use Rattle.cluster_types.specs.Valid.{IsValid};
ghost use Rattle.written_runs.specs.SomeEnds.{HasCutRun, HasRunSoFar, HasWholeRun};

/// There is a run. Of a valid cluster, from any journal on and over any answers, it goes to its end or up to an answer that doesn't apply. Where more answers
/// may come than those, it goes up to where all were taken and one more is asked for, or again up to one that doesn't apply.
pub fn there_is_a_run()
    ensures all { (c : ClusterOf) (promotions : List PromotionOf) (es : List EventOf) (answers : List AnswerOf)
        → IsValid c → HasWholeRun c promotions es answers ⊎ HasCutRun c promotions es answers true }
    ensures more { (c : ClusterOf) (promotions : List PromotionOf) (es : List EventOf) (answers : List AnswerOf)
        → IsValid c → HasRunSoFar c promotions es answers ⊎ HasCutRun c promotions es answers false }
{}
