//! What each question brings.

ghost use Rattle.std.specs.Prelude.{◌≡◌};
ghost use Rattle.cluster_io.specs.LineReaders.{reading_of};
ghost use Rattle.cluster_types.specs.Valid.{IsValid};
ghost use Rattle.live_run.specs.Heads.{CanGoOn};

use crate::starts::{TWO, cluster_of};
use cluster_io::{LineReader, MemorySource, Source};
use cluster_types::{Answer, Cluster};
use crm_lex::LexCause;
use graph_exec::Next;
use input_reading::{ResultCause, WordCause};
use live_run::{LineCause, LineOutcomes, LineStop};
use names::Names;
use std::alloc::Global;
use std::process::Abort;

/// What a question brings, the line of the last answer then, and why it failed the last time.
type Asked = (Next, u32, Option<LineStop>);

/// Result lines of which the first is taken at the moment 1,000, how many bytes they may have, which reads of 8 bytes fail,
/// and what each question brings.
type Row = (&'static str, usize, &'static [u32], &'static [Asked]);

const END_1: Next = Next::Answer(Answer::End { number: 1, code: 7 });

const END_2: Next = Next::Answer(Answer::End { number: 2, code: 0 });

const ROWS: &[Row] = &[
    // Comments and lines without words are passed over; the last line has no line feed.
    (
        "# first\n\nend 1 7\n \t\n  # note \\\nend 2 \\\n 0",
        1000,
        &[],
        &[
            (END_1, 3, None),
            (END_2, 6, None),
            (Next::Silent, 6, None),
            (Next::Silent, 6, None),
        ],
    ),
    // A refused line stays refused, and no answer behind it is read.
    (
        "end 1 7\n\nend 2 x\nend 2 0\n",
        1000,
        &[],
        &[
            (END_1, 1, None),
            (
                Next::Failed,
                1,
                Some(LineStop::Refused {
                    line: 3,
                    cause: LineCause::Form(ResultCause::Form(WordCause::BadValue)),
                }),
            ),
            (
                Next::Failed,
                1,
                Some(LineStop::Refused {
                    line: 3,
                    cause: LineCause::Form(ResultCause::Form(WordCause::BadValue)),
                }),
            ),
        ],
    ),
    (
        "end 1 \"7\n",
        1000,
        &[],
        &[(
            Next::Failed,
            0,
            Some(LineStop::Refused {
                line: 1,
                cause: LineCause::Words(LexCause::OpenQuote),
            }),
        )],
    ),
    (
        "end 1 7\n%results\n",
        1000,
        &[],
        &[
            (END_1, 1, None),
            (
                Next::Failed,
                1,
                Some(LineStop::Refused {
                    line: 2,
                    cause: LineCause::Form(ResultCause::Form(WordCause::UnknownStatement)),
                }),
            ),
        ],
    ),
    // A wait lets the moment of the next line grow.
    (
        "wait 1099511626775\nwait 1\n",
        1000,
        &[],
        &[
            (
                Next::Answer(Answer::Wait {
                    seconds: 1_099_511_626_775,
                }),
                1,
                None,
            ),
            (
                Next::Failed,
                1,
                Some(LineStop::Refused {
                    line: 2,
                    cause: LineCause::Form(ResultCause::Form(WordCause::BadValue)),
                }),
            ),
        ],
    ),
    // The second line goes past the limit.
    (
        "end 1 7\nend 2 0\n",
        12,
        &[],
        &[
            (END_1, 1, None),
            (Next::Failed, 1, Some(LineStop::TooLarge)),
            (Next::Failed, 1, Some(LineStop::TooLarge)),
        ],
    ),
    // After a failed read the next question goes on.
    (
        "end 1 7\nend 2 0\n",
        1000,
        &[2],
        &[
            (END_1, 1, None),
            (Next::Failed, 1, Some(LineStop::ReadFault)),
            (END_2, 2, Some(LineStop::ReadFault)),
            (Next::Silent, 2, Some(LineStop::ReadFault)),
        ],
    ),
    // The second read finds the end, and a third would fail.
    (
        "end 1 7",
        1000,
        &[3],
        &[
            (END_1, 1, None),
            (Next::Silent, 1, None),
            (Next::Silent, 1, None),
        ],
    ),
    ("", 0, &[], &[(Next::Silent, 0, None)]),
    (
        "",
        0,
        &[2],
        &[(Next::Silent, 0, None), (Next::Silent, 0, None)],
    ),
];

/// The next question brings this.
fn brings<S: Source>(outcomes: &mut LineOutcomes<'_, '_, S>, asked: &Asked) -> bool {
    let (next, line, stop) = asked;
    outcomes.ask() == *next && outcomes.line() == *line && outcomes.stop() == *stop
}

/// Each question to a source over the reader brings what is expected.
fn check_questions(
    rt: &impl Abort,
    alloc: Global,
    names: &Names<'_>,
    reader: LineReader<'_, MemorySource>,
    expected: &[Asked],
)
    requires next { (reading_of reader).next ≡ 1 }
    requires reader { CanGoOn (reading_of reader) }
{
    let mut outcomes = LineOutcomes::new(alloc, names, 1000, 1, reader).expect(rt, "memory");
    for asked in expected {
        assert!(rt; brings(&mut outcomes, asked));
    }
}

#[tactic(auto, using(live_run::proofs::Readers::fresh_reader))]
fn check_row(rt: &impl Abort, alloc: Global, cluster: &Cluster, row: &Row)
    requires { IsValid cluster.now }
{
    let (text, limit, fails, expected) = row;
    assert!(rt; *limit < 4_294_967_296);
    let text = text.as_bytes().to_vec(alloc).expect(rt, "memory");
    let fails = fails.to_vec(alloc).expect(rt, "memory");
    let mut source = MemorySource::new(text, 8, fails);
    let reader = LineReader::new(alloc, &mut source, *limit, 1_048_576).expect(rt, "memory");
    let names = Names::new(alloc, cluster).expect(rt, "memory");
    check_questions(rt, alloc, &names, reader, expected);
}

#[test]
fn each_question_brings_the_next_answer(rt: HostRuntime) {
    let cluster = cluster_of(&rt, rt.alloc(), TWO);
    for row in ROWS {
        check_row(&rt, rt.alloc(), &cluster, row);
    }
}
