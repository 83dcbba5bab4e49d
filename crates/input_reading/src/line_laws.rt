//! What follows from the definitions of `specs/`, for every cluster.

ghost use Rattle.std.specs.Prelude.{List};
ghost use Rattle.std.specs.List.{AllByRecursion};
ghost use Rattle.cluster_types.specs.declared.cluster.Cluster.{Cluster as ClusterOf};
ghost use Rattle.cluster_types.specs.declared.run.RunLine.{RunLine as RunLineOf};
ghost use Rattle.cluster_types.specs.Valid.{IsValid};
ghost use Rattle.input_reading.specs.PrintedLines.{IsLineOf, ReadsAgain};

/// What is written of a run reads again: the text of lines that a run of a valid cluster prints is read as the same
/// lines, each at its place.
pub fn what_is_written_reads_again()
    ensures { (c : ClusterOf) (lines : List RunLineOf)
        → IsValid c → AllByRecursion (IsLineOf c) lines → ReadsAgain c lines }
{}
