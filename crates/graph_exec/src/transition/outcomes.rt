//! Where the answers come from.

ghost use Rattle.std.specs.Prelude.{◌≡◌, ◌≢◌, ◌≤◌, ◌++◌, ◌∷◌, [], ℕ, Bool, true, Option, List};
ghost use Rattle.cluster_io.specs.Streams.{Rose};
ghost use Rattle.cluster_types.specs.declared.cluster.Cluster.{Cluster as ClusterOf};
ghost use Rattle.cluster_types.specs.declared.journal.Answer.{Answer as AnswerOf};
ghost use Rattle.cluster_types.specs.declared.journal.Event.{Event as EventOf};
ghost use Rattle.cluster_types.specs.declared.journal.Event.TheVariants.{Begin};
ghost use Rattle.cluster_types.specs.Journals.{AreInFlightByNumber};
ghost use Rattle.graph_exec.specs.Flights.{pairs_in_flight};
ghost use Rattle.graph_exec.specs.declared.transition.outcomes.Next.{Next as NextOf};
ghost use Rattle.graph_exec.specs.declared.transition.outcomes.Next.TheVariants as says;
ghost use Rattle.graph_exec.specs.Counts.{CountsAnswer, RoseByOne};
ghost use Rattle.graph_exec.specs.SourceDuties.{AgreesAfter, GivesNext, AppliesIfAnswered, IsOverBy};

use crate::transition::flight::InFlight;
use cluster_types::{Action, Answer};

/// What a source says next.
#[derive(Clone, Copy, Debug, PartialEq, Eq)]
pub enum Next {
    Answer(Answer),
    /// Nothing more is said.
    Silent,
    /// The source has failed.
    Failed,
}

/// A source of outcomes: it is told what begins, and says what comes of it.
pub trait Outcomes {
    /// The answers to come, where they are told.
    ghost rest: { Self → Option (List AnswerOf) };

    /// Whether these are known to be all.
    ghost whole: { Self → Bool };

    /// How often the source has failed. The count stands still at the end of 64 bits.
    ghost faults: { Self → ℕ };

    /// How often it was asked. The count stands still at the end of 64 bits.
    ghost asked: { Self → ℕ };

    /// How many answers it has given. The count stands still at the end of 64 bits.
    ghost answered: { Self → ℕ };

    /// Whether each of its answers applies.
    ghost careful: { Self → Bool };

    /// Whether it never fails after it has said that nothing more comes.
    ghost steady: { Self → Bool };

    /// Whether it never fails from now on.
    ghost over: { Self → Bool };

    /// What it says next is at hand: a question brings it without waiting.
    ghost at_hand: { Self → Type 0 };

    /// Its last question has failed as it waited for what comes next.
    ghost broke: { Self → Type 0 };

    /// It agrees with a journal of a cluster, after so many answers from outside in this transition.
    ghost agrees: { Self → ClusterOf → List EventOf → ℕ → Type 0 };

    /// It has come from another, the same source at an earlier moment, by what it was told and asked since, and no question failed.
    ghost follows: { Self → Self → Type 0 };

    /// It has come so from another, and then a last question brought this.
    ghost said: { Self → Self → NextOf → Type 0 };

    /// The action of this number begins: its event is in the journal.
    fn begun(&mut self, number: u32, action: Action)
        ensures rest { rest self.new ≡ rest self.old }
        ensures whole { whole self.new ≡ whole self.old }
        ensures count { faults self.old ≤ faults self.new }
        ensures asked { asked self.new ≡ asked self.old }
        ensures answered { answered self.new ≡ answered self.old }
        ensures careful { careful self.new ≡ careful self.old }
        ensures steady { steady self.new ≡ steady self.old }
        ensures over { over self.new ≡ over self.old }
        ensures agrees { (c : ClusterOf) (es : List EventOf) (taken : ℕ) → agrees self.old c es taken → agrees self.new c (es ++ Begin number action ∷ []) taken }
        ensures follows { follows self.old self.new };

    /// Whether what it says next is at hand. Where it can't tell, it says no.
    fn is_ready(&self) -> bool
        ensures { result ≡ true → at_hand self.now };

    /// What comes next, with these actions in flight.
    fn next(&mut self, flight: &InFlight) -> Next
        ensures gives { GivesNext (whole self.old) (rest self.old) (rest self.new) result }
        ensures whole { whole self.new ≡ whole self.old }
        ensures count { faults self.old ≤ faults self.new }
        ensures cause { result ≡ Next.Failed → Rose (faults self.old) (faults self.new) }
        ensures at_hand { at_hand self.old → result ≡ Next.Failed → ¬ broke self.new }
        ensures asked { RoseByOne (asked self.old) (asked self.new) }
        ensures answered { CountsAnswer result (answered self.old) (answered self.new) }
        ensures careful { careful self.new ≡ careful self.old }
        ensures steady { steady self.new ≡ steady self.old }
        ensures over { IsOverBy (steady self.old) (over self.old) (over self.new) result }
        ensures agrees { (c : ClusterOf) (es : List EventOf) (taken : ℕ) → agrees self.old c es taken → AreInFlightByNumber es (pairs_in_flight flight.now)
            → AgreesAfter (agrees self.new) c es taken (pairs_in_flight flight.now) result }
        ensures fitting { (c : ClusterOf) (es : List EventOf) (taken : ℕ) → careful self.old ≡ true → agrees self.old c es taken
            → AreInFlightByNumber es (pairs_in_flight flight.now) → AppliesIfAnswered c es taken (pairs_in_flight flight.now) result }
        ensures said { said self.old self.new result };

    /// It agrees before the first answer from outside with each journal with which it agrees after some.
    ghost anew: { (source : Self) (c : ClusterOf) (es : List EventOf) (taken : ℕ) → agrees source c es taken → agrees source c es 0 };

    /// It has come from itself.
    ghost from_itself: { (source : Self) → follows source source };

    /// It has come from what it came from on the way.
    ghost from_before: { (first middle last : Self) → follows first middle → follows middle last → follows first last };

    /// Where the last question didn't fail, none failed.
    ghost from_said: { (first last : Self) (brought : NextOf) → brought ≢ says.Failed → said first last brought → follows first last };

    /// What a last question brought, it brought behind what came before.
    ghost said_later: { (first middle last : Self) (brought : NextOf) → follows first middle → said middle last brought → said first last brought };
}
