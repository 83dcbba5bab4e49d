//! The place of a result line among the others.

ghost use Rattle.std.specs.Prelude.{◌≡◌, ◌+◌, ◌<◌, ◌≤◌, ◌^◌};
ghost use Rattle.live_run.specs.LineSays.{place_behind_said};
ghost use Rattle.live_run.specs.Inner.LineFits.{SaidFits};

use crate::line_saying::Said;

/// The place of a result line.
#[derive(Clone, Copy)]
pub struct Place {
    /// The moment, in seconds.
    pub moment: u64,
    /// How many result lines came before it.
    pub before: u32,
    /// The number of its first physical line, counted from 1.
    pub line: u64,
}

impl Place {
    /// The place behind a line that says this and has so many physical lines.
    pub(crate) fn behind(self, said: Said, lines: usize) -> Place
        requires fits { SaidFits self said }
        requires line { self.line + lines ≤ 2 ^ 32 }
        ensures { result ≡ place_behind_said self said lines }
    {
        let line = self.line + lines as u64;
        match said {
            Said::Answer(answer) => Place {
                moment: self.moment + answer.seconds(),
                before: self.before + 1,
                line,
            },
            Said::Nothing | Said::Stop(_) => Place { line, ..self },
        }
    }
}
