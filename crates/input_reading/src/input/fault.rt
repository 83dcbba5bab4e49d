use crate::input::cause::InputCause;
use faults::Fault;

/// Why nothing is read of an input: the line and the cause of the first step of reading that fails, or out of memory. Lines are physical lines,
/// counted from 1: the first of the logical line, or for `NotUtf8` and `ControlByte` that of the byte.
pub type InputFault = Fault<InputCause>;
