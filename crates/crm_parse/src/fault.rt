ghost use Rattle.std.specs.Prelude.{◌≡◌};
ghost use Rattle.crm_parse.specs.Causes.{parse_name};

use faults::Fault;
use thiserror::Error;

/// Why a configuration isn't read.
#[derive(Clone, Copy, Debug, PartialEq, Eq, Error)]
pub enum ParseCause {
    /// The first word begins no statement, or a section stands out of its place.
    #[error("The first word begins no statement, or no line of the section that it is in. Or a line that begins with \
        `%` is neither `%status` nor `%results`, has a second word, is a second one of its kind, or is out of order.")]
    UnknownStatement,
    /// The word is one of the language that this project doesn't carry out.
    #[error("crmsh takes the word, and this program doesn't carry it out.")]
    Unsupported,
    /// The word isn't a score.
    #[error("A score belongs here: a whole number or `inf`, with a sign or without, and a colon behind it unless it \
        is the value of a key. In a location, what may come before the score is misspelt or out of order.")]
    BadScore,
    /// The word isn't a time.
    #[error("A time belongs here: digits, and `ms`, `s`, `m` or `h` or none for seconds, of at most 4,294,967,295 ms.")]
    BadTime,
    /// The word isn't one of its place.
    #[error("The word isn't one that may be here: a name with other characters, a value that its key doesn't take, a \
        number out of its range.")]
    BadValue,
    /// The statement ends too early, or a section has no pair.
    #[error("The statement or the section ends too early.")]
    MissingWord,
    /// The word has no place.
    #[error("The word has no place here. A pair may lack its `=`, a section word may be misspelt, or parts may be \
        out of order.")]
    ExtraWord,
    /// The key, or what it stands for, was given before.
    #[error("The key was given before in the same kind of section, in the same operation, or in an earlier statement \
        of the same kind of settings. Or `promoted-max` and `master-max` are both given, a second monitor has the \
        same interval, or a primitive has a second `start`, `stop`, `promote` or `demote`. Only `$id` may be \
        repeated.")]
    RepeatedKey,
}

/// The name of a cause, as it is printed: that of its variant.
pub fn parse_name(cause: ParseCause) -> &'static str
    ensures { result.now ≡ parse_name cause }
{
    match cause {
        ParseCause::UnknownStatement => "UnknownStatement",
        ParseCause::Unsupported => "Unsupported",
        ParseCause::BadScore => "BadScore",
        ParseCause::BadTime => "BadTime",
        ParseCause::BadValue => "BadValue",
        ParseCause::MissingWord => "MissingWord",
        ParseCause::ExtraWord => "ExtraWord",
        ParseCause::RepeatedKey => "RepeatedKey",
    }
}

/// Why there are no statements. The line is the lowest faulty one, the physical line, counted from 1, where the logical line begins, and the
/// cause that of its leftmost faulty word.
pub type ParseFault = Fault<ParseCause>;

/// Why a statement isn't read: the cause of its leftmost faulty word, or out of memory.
pub(crate) type Stop = faults::Stop<ParseCause>;

impl From<ParseCause> for faults::Stop<ParseCause> {
    ghost use Rattle.std.specs.Prelude.{◌≡◌};
    ghost use Rattle.faults.specs.declared.stop.Stop.TheVariants.{Cause};

    ghost from_gives = { λ cause stop. stop ≡ Cause cause };

    fn from(cause: ParseCause) -> Self {
        faults::Stop::Cause(cause)
    }
}
