use std::marker::Model;

/// How much a resource wants to be on a node: from -1,000,000, which is -INFINITY and means never, to 1,000,000, which is INFINITY and
/// means always (Pacemaker Explained, "Scores"). Contracts see a score as its points.
#[derive(Clone, Copy, Debug, PartialEq, Eq, PartialOrd, Ord)]
pub struct Score {
    /// The number, from -1,000,000 to 1,000,000.
    pub points: i32,
}

impl Model for Score {
    ghost use Rattle.std.specs.Prelude.{ℤ};
    ghost use Rattle.score.specs.Total.{IsScore};

    ghost Value = { ℤ };

    ghost view = { λ score. score.points };

    ghost invariant = { λ score. IsScore score.points };

    ghost inverse = { λ points. record { points = points } };
}

impl Score {
    /// The greatest score, 1,000,000 points: always.
    pub const INFINITY: Score = Score { points: 1_000_000 };

    /// The least score, -1,000,000 points: never.
    pub const MINUS_INFINITY: Score = Score { points: -1_000_000 };
}
