//! Laws of the definitions. Each is a function that does nothing, and whose contract is the law.

ghost use Rattle.std.specs.Prelude.{◌≡◌, ◌≢◌, ◌≤◌, ◌↔◌, ℕ, Some, List, length, true};
ghost use Rattle.cluster_types.specs.declared.cluster.Cluster.{Cluster as ClusterOf};
ghost use Rattle.cluster_types.specs.declared.journal.Journal.{Journal as JournalOf};
ghost use Rattle.cluster_types.specs.Valid.{IsValid};
ghost use Rattle.crm_lex.specs.declared.fault.LexCause.{LexCause as LexCauseOf};
ghost use Rattle.crm_print.specs.PrintedAgain.{has_short_lines};
ghost use Rattle.input_reading.specs.Reading.{IsFaultyText, IsTextRefused, ReadsInput, most_bytes};
ghost use Rattle.input_reading.specs.declared.input.cause.InputCause.{InputCause as CauseOf};
ghost use Rattle.input_reading.specs.declared.input.cause.InputCause.TheVariants.{Words};
ghost use Rattle.input_reading.specs.declared.input.reading.Input.{Input as InputOf};
ghost use Rattle.live_run.specs.AnswersToCome.{Coming};
ghost use Rattle.live_run.specs.Ends.{IsDueEnd};
ghost use Rattle.live_run.specs.declared.line_stop.LineStop.TheVariants.{ReadFault};
ghost use Rattle.live_run.specs.declared.live_end.LiveEnd.{LiveEnd as LiveEndOf};
ghost use Rattle.sim_core.specs.CheckedAgain.{IsReadAgain};
ghost use Rattle.sim_core.specs.Check.{check_text};
ghost use Rattle.sim_core.specs.Commands.{Gets};
ghost use Rattle.sim_core.specs.GenSummary.{IsSummaryText};
ghost use Rattle.sim_core.specs.Headline.{IsSafeOutput};
ghost use Rattle.sim_core.specs.Replay.{IsReplayOutput};
ghost use Rattle.sim_core.specs.ReplayedAgain.{IsCutRunReadAgain, IsWholeRunReadAgain};
ghost use Rattle.sim_core.specs.LineByLine.{ComesLineByLine, HasPlainRest, HasRefusedLine, IsRefusedByLine};
ghost use Rattle.sim_core.specs.SafeTexts.{IsSummaryOfSafeRun, IsTextOfSafeWorld};
ghost use Rattle.sim_core.specs.World.{IsWorldOf};
ghost use Rattle.sim_core.specs.declared.status.Status.{Status as StatusOf};
ghost use Rattle.sim_core.specs.declared.status.Status.TheVariants.{Done, Unexpected};
ghost use Rattle.sim_core.specs.declared.words.Command.{Command as CommandOf};

/// With each word an input gets at most one exit status and one text.
pub fn outputs_are_unique()
    ensures { (word : CommandOf) (input text other : List ℕ) (status also : StatusOf) → Gets word input status text → Gets word input also other
        → (status ≡ also) × (text ≡ other) }
{}

/// What `check` writes of an input is read as the same statements and the same cluster, where none of its lines is longer than a line may be, and
/// `check` writes the same text of it.
pub fn what_check_writes_is_read_again()
    ensures { (text : List ℕ) (whole : InputOf) → ReadsInput text whole → has_short_lines whole.head.crm ≡ true → IsReadAgain (check_text whole) whole }
{}

/// The headline. What `replay` writes of an input is the one run of the given results: the whole run with status 0, and with 6, 5 and 7 the run up to where
/// it ends early, or with 5 and 7 what is due of a head that has no run. Each transition has the one plan for the journal so far, whose targets obey the mandatory rules and are the best allowed after earlier
/// placements; no action begins before all that must precede it have succeeded, and none makes a second copy or a forbidden neighbour of what may still run;
/// and each complete transition ends in its targets. What stands written with any other status is a front of that run (`WritesASafeRun`, a clause of `run`).
pub fn what_replay_writes_is_one_safe_run()
    ensures { (input text : List ℕ) (outcome : StatusOf) → IsReplayOutput input outcome text → IsSafeOutput input outcome text }
{}

/// What `replay` writes with status 0 or 6 is read again as the lines of its run, whatever the input: with 6 the last of them is `unexpected LINE`.
pub fn what_replay_writes_is_read_again()
    ensures whole { (input text : List ℕ) → IsReplayOutput input Done text → IsWholeRunReadAgain input text }
    ensures cut { (input text : List ℕ) → IsReplayOutput input Unexpected text → IsCutRunReadAgain input text }
{}

/// The run of a valid cluster gets an end and a text, from any journal on and over whatever is to come of result lines, as long as that doesn't say that their
/// source has failed.
pub fn there_is_an_end()
    ensures { (c : ClusterOf) (journal : JournalOf) (coming : Coming) → IsValid c → coming.stop ≢ Some ReadFault → (how : LiveEndOf) × IsDueEnd c journal coming how }
{}

/// What `world` writes is the run of a simulated cluster that is safe all the way, whatever the cluster answers; its lines are safe by themselves, and at each
/// of them what really runs is among what may run, by the first journal and the lines before.
pub fn what_world_writes_is_a_safe_run()
    ensures { (number : ℕ) (input text : List ℕ) (whole : InputOf) → ReadsInput input whole → IsWorldOf number whole text → IsTextOfSafeWorld number whole text }
{}

/// The run that `gen` sums up is safe all the way, and its lines are safe by themselves.
pub fn what_gen_sums_up_is_a_safe_run()
    ensures { (number : ℕ) (input text : List ℕ) (whole : InputOf) → ReadsInput input whole → IsSummaryText number whole text → IsSummaryOfSafeRun number whole text }
{}

/// A number has one summary of an input.
pub fn summaries_are_unique()
    ensures { (number : ℕ) (whole : InputOf) (text other : List ℕ) → IsSummaryText number whole text → IsSummaryText number whole other → text ≡ other }
{}

/// An accepted input is one notion, with and without `%status` and `%results`: what `replay` takes from an input line by line is what the other words read of it
/// whole within the limit of bytes, the same cluster, first journal and answers. Within the limit both refuse the same inputs. They name the same line and cause
/// where the line can't be cut into words, and where no line behind the head is at fault in this or begins with a percent sign. Words that read an input whole
/// look for such lines in all of it first: where `%results` stands on line 4, `lost nowhere` on line 5 and an open quote on line 9, they name line 9, and `replay`
/// line 5. What a run asks for is another matter: one that an unexpected answer cuts, or that has to stop for memory or a failed write, leaves the lines behind
/// unread, whatever they say.
pub fn what_comes_is_the_input()
    ensures accepted { (input : List ℕ) (whole : InputOf) → ((ReadsInput input whole) × (length input ≤ most_bytes)) ↔ ComesLineByLine input whole }
    ensures refused { (input : List ℕ) → length input ≤ most_bytes → IsFaultyText input ↔ HasRefusedLine input }
    ensures same_words { (input : List ℕ) (line : ℕ) (why : LexCauseOf) → IsRefusedByLine input line (Words why) → IsTextRefused input line (Words why) }
    ensures same_fault { (input : List ℕ) (line : ℕ) (why : CauseOf) → IsRefusedByLine input line why → HasPlainRest input → IsTextRefused input line why }
{}
