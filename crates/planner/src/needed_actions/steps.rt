//! The steps of a cell.

ghost use Rattle.std.specs.Prelude.{◌≡◌, [], if◌then◌else◌};
ghost use Rattle.cluster_types.specs.NeededActions as needed;
ghost use Rattle.planner.specs.Inner.Levels.{no_need, steps_by};

use cluster_types::{CellState, Op, Target};

/// What is known of a cell and what it is to be: what its actions hang on.
#[derive(Clone, Copy)]
pub struct CellNeed {
    pub state: CellState,
    /// Whether the leaf may run there.
    pub may: bool,
    /// Bit i is set where monitor i of the leaf is running.
    pub running: u8,
    pub target: Target,
    /// Whether the leaf is left as it is.
    pub pinned: bool,
    /// Whether the cell can be stopped and started again.
    pub can_cycle: bool,
}

/// The steps that bring a cell from its state to its target. A cycled cell is stopped and started again on the way.
fn steps_of(state: CellState, target: Target, cycled: bool) -> &'static [Op]
    ensures { result.now ≡ needed.steps_of state target cycled }
{
    match (state, target) {
        (CellState::Unprobed | CellState::Off, Target::Started) => &[Op::Start],
        (CellState::Unprobed | CellState::Off, Target::Promoted) => &[Op::Start, Op::Promote],
        (CellState::On | CellState::Failed, Target::Nowhere) => &[Op::Stop],
        (CellState::On, Target::Started) if cycled => &[Op::Stop, Op::Start],
        (CellState::On, Target::Promoted) if cycled => &[Op::Stop, Op::Start, Op::Promote],
        (CellState::On, Target::Promoted) => &[Op::Promote],
        (CellState::Promoted, Target::Nowhere) => &[Op::Demote, Op::Stop],
        (CellState::Promoted, Target::Started) if cycled => &[Op::Demote, Op::Stop, Op::Start],
        (CellState::Promoted, Target::Started) => &[Op::Demote],
        (CellState::Promoted, Target::Promoted) if cycled => &[
            Op::Demote,
            Op::Stop,
            Op::Start,
            Op::Promote,
        ],
        (CellState::Failed, Target::Started) => &[Op::Stop, Op::Start],
        (CellState::Failed, Target::Promoted) => &[Op::Stop, Op::Start, Op::Promote],
        _ => &[],
    }
}

/// Whether the step is an action of an order's first that takes its role away or gives it anew, by the order's word for it.
fn disturbs(word: Op, step: Op) -> bool
    ensures { result ≡ needed.disturbs word step }
{
    match word {
        Op::Start => matches!(step, Op::Start | Op::Stop),
        Op::Promote => matches!(step, Op::Promote | Op::Demote | Op::Stop),
        _ => false,
    }
}

impl CellNeed {
    /// What a cell has that isn't there: no steps.
    pub fn none() -> CellNeed
        ensures { result ≡ no_need }
    {
        CellNeed {
            state: CellState::Away,
            may: false,
            running: 0,
            target: Target::Nowhere,
            pinned: true,
            can_cycle: false,
        }
    }

    /// The steps of the cell.
    pub fn steps(self, cycled: bool) -> &'static [Op]
        ensures { result.now ≡ steps_by self cycled }
    {
        if self.pinned {
            return &[];
        }
        steps_of(self.state, self.target, cycled)
    }

    /// Whether some step of the cell disturbs an order of which it is the first, by the order's word for it.
    pub fn is_disturbed(self, word: Op, cycled: bool) -> bool
        ensures { result ≡ needed.has_disturbing word (steps_by self cycled) }
    {
        self.steps(cycled).iter().any(|step| disturbs(word, *step))
    }
}
