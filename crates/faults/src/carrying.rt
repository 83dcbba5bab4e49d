//! Values that are carried past a step that may fail: on to what follows where it doesn't, and let go where it does.
ghost use Rattle.faults.specs.Carry.{IsDone, IsWith};

/// A value beside what the next step gives. Where that step failed, the value is let go here, so that its caller has nothing
/// to let go.
pub fn with<A: Drop, B, E>(value: A, next: Result<B, E>) -> Result<(A, B), E>
    ensures { IsWith value next result }
{
    match next {
        Ok(next) => Ok((value, next)),
        Err(error) => Err(error),
    }
}

/// A value, where the step that was to be done first ended well. Where it failed, the value is let go here.
pub fn done<A: Drop, E>(value: A, step: Result<(), E>) -> Result<A, E>
    ensures { IsDone value step result }
{
    match step {
        Ok(()) => Ok(value),
        Err(error) => Err(error),
    }
}
