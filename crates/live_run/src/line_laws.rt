//! Laws of what logical lines say, of the head and of the results. Each is a function that does nothing, and whose contract
//! is the law.

ghost use Rattle.std.specs.Prelude.{◌≡◌, ◌↔◌, ◌-◌, ◌++◌, [], ℕ, List, None, length};
ghost use Rattle.cluster_types.specs.declared.cluster.Cluster.{Cluster as ClusterOf};
ghost use Rattle.live_run.specs.AnswersToCome.{coming};
ghost use Rattle.live_run.specs.Heads.{HeadFound, IsHeadOfLines, head_found};
ghost use Rattle.live_run.specs.SourceFollowed.{bytes_of, place_behind_lines, results_first};
ghost use Rattle.live_run.specs.declared.place.Place.{Place as PlaceOf};

/// The head that is found of some logical lines, line by line, is the one that they have when it is said without steps.
#[tactic(auto, using(crate::proofs::HeadsSaid::heads_are_said))]
pub fn heads_are_as_they_are_said()
    ensures { (longest room n : ℕ) (all : List (List (List ℕ))) (head : HeadFound) → (head_found longest room n [] all ≡ head) ↔ IsHeadOfLines longest room n all head }
{}

/// A result line stands at the place, and has the room, that the lines before it leave, where none of these ends the reading.
#[tactic(auto, using(crate::proofs::Places::lines_behind))]
pub fn lines_stand_behind_those_before()
    ensures { (c : ClusterOf) (longest room : ℕ) (at : PlaceOf) (before more : List (List (List ℕ))) → (coming c longest room at before).stop ≡ None
        → coming c longest room at (before ++ more) ≡ results_first (coming c longest room at before).results
        (coming c longest (room - length (bytes_of before)) (place_behind_lines at (coming c longest room at before).results before) more) }
{}
