/// What `--version` writes.
pub const VERSION: &str = "cekpayo 0.1.0\n";

/// What `--help` writes.
pub const HELP: &str = "\
cekpayo works out what a high-availability cluster does with its resources,
and replays how its actions ended.

Usage: cekpayo WORD < INPUT > OUTPUT

  check      reads a configuration in crmsh syntax with its status and results,
             and writes it in canonical form, with a last line
             `# nodes N leaves N rules N`
  scores     reads as check does, and writes the total of each resource on each
             node, its targets, or the reason why it has none
  why        reads as check does, and writes what scores does, and of each
             decision and node what was counted for it, by which statement,
             and why it was chosen or not; then which rule held back what
  graph      reads as check does, and writes the actions that bring the cluster
             to its targets, and what must precede each
  survive    reads as check does, and writes where everything goes when a node
             is lost, for each node that is online
  audit      reads a configuration and its status as check does, and behind a
             line `%trace` a run as replay writes it; writes `lawful` if it is
             the whole run of its own answers, or else `unlawful LINE CLAUSE`:
             the first line that is not the due one, and what is due there
  replay     reads a configuration and its status as check does, and writes the
             run: where each resource goes, which actions begin and how they
             end, transition after transition. Each line is written as it
             happens, and each result line is read when the run asks for it;
             where no more come, each action ends as is expected of it
  gen N      reads nothing, and writes a summary of the run of the generated
             case N, 0 to 4294967295: the node that is lost, and how many
             nodes, leaves, transitions, begun actions, successes and targets
             there are
  world N    reads as check does, and writes a run in the simulated cluster N, 0
             to 4294967295, whose nodes and agents do what is drawn by N; then
             `real RESOURCE NODE started`, or `promoted`, for each resource that
             really runs on a node at its end, and `ended complete`, or `ended
             more` where another transition is due after 1000
  --help     reads nothing, and writes this text
  --version  reads nothing, and writes the name and version of the program

Exit status:

  0  done: the input was read to its end, and the whole text was written
  1  memory ran out; a prefix of the text was written
  2  the words are none of the forms; nothing was written
  3  reading failed; nothing was written, or of replay the run so far
  4  writing failed; a prefix of the text was written
  5  the input is refused; `refused LINE CAUSE` was written, behind the run so
     far where it is a result line of replay
  6  a result line doesn't apply; the run so far and `unexpected LINE` were
     written
  7  the input has more than 16777216 bytes; nothing was written, or of replay
     the run so far
  8  the run that audit read isn't lawful; `unlawful LINE CLAUSE` was written
";
