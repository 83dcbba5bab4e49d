//! Laws of the life of a simulated cluster. Each is a function that does nothing, and whose contract is the law.

ghost use Rattle.std.specs.Prelude.{◌≡◌, ◌++◌, ℕ, List};
ghost use Rattle.cluster_types.specs.declared.cluster.Cluster.{Cluster as ClusterOf};
ghost use Rattle.cluster_types.specs.declared.journal.Event.{Event as EventOf};
ghost use Rattle.simulated.specs.Lives.{Lives};
ghost use Rattle.simulated.specs.RealWorlds.{RealWorld};
ghost use Rattle.simulated.specs.LivesOn.{LivesOn, StepOfLife};

/// From one moment on one journal begins with the events of one step: those of an action that begins, or of the turn that comes.
pub fn steps_of_life_are_unique()
    ensures { (c : ClusterOf) (number : ℕ) (es events others more rest : List EventOf) (w next after : RealWorld)
        → events ++ more ≡ others ++ rest → StepOfLife c number es w events next → StepOfLife c number es w others after → (events ≡ others) × (next ≡ after) }
{}

/// By one journal from one first journal on, a simulated cluster stands in one way.
pub fn lives_are_unique()
    ensures { (c : ClusterOf) (number : ℕ) (first es : List EventOf) (w other : RealWorld)
        → Lives c number first es w → Lives c number first es other → w ≡ other }
{}

/// A longer journal comes from a shorter one by steps of life.
pub fn lives_go_on()
    ensures { (c : ClusterOf) (number : ℕ) (first es more : List EventOf) (w last : RealWorld)
        → Lives c number first es w → Lives c number first (es ++ more) last → LivesOn c number es w (es ++ more) last }
{}
