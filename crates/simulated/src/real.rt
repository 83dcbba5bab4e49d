//! What really is.

ghost use Rattle.std.specs.Prelude.{◌≡◌};
ghost use Rattle.simulated.specs.RealWorlds as worlds;

/// What a leaf really does on a node.
#[derive(Clone, Copy, Debug, PartialEq, Eq)]
pub enum Real {
    /// It doesn't run.
    Off,
    /// Its start was given up, and it comes up all the same.
    Rising,
    Started,
    Promoted,
}

impl Real {
    /// Whether something is there: it runs, or comes up.
    pub fn is_there(self) -> bool
        ensures { result ≡ worlds.is_there self }
    {
        match self {
            Real::Off => false,
            Real::Rising | Real::Started | Real::Promoted => true,
        }
    }

    pub fn is_promoted(self) -> bool
        ensures { result ≡ worlds.is_really_promoted self }
    {
        match self {
            Real::Promoted => true,
            Real::Off | Real::Rising | Real::Started => false,
        }
    }

    /// Whether it comes up.
    pub fn is_rising(self) -> bool
        ensures { result ≡ worlds.is_rising self }
    {
        match self {
            Real::Rising => true,
            Real::Off | Real::Started | Real::Promoted => false,
        }
    }
}

/// How a node really stands.
#[derive(Clone, Copy, Debug, PartialEq, Eq)]
pub enum Standing {
    Up,
    /// It left without a word, and what runs there runs on.
    Lost,
    Off,
}
