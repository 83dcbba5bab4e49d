ghost use Rattle.std.specs.Prelude.{◌≡◌};
ghost use Rattle.input_reading.specs.Causes.{word_name};

use thiserror::Error;

/// Why the words of a line aren't read. Of a line the leftmost faulty word counts.
#[derive(Clone, Copy, Debug, PartialEq, Eq, Error)]
pub enum WordCause {
    /// The first word begins no line of its section.
    #[error("The first word begins no statement, or no line of the section that it is in. Or a line that begins with \
        `%` is neither `%status` nor `%results`, has a second word, is a second one of its kind, or is out of order.")]
    UnknownStatement,
    /// The line ends too early.
    #[error("The statement or the section ends too early.")]
    MissingWord,
    /// The word has no place.
    #[error("The word has no place here. A pair may lack its `=`, a section word may be misspelt, or parts may be \
        out of order.")]
    ExtraWord,
    /// The word isn't one of its place.
    #[error("The word isn't one that may be here: a name with other characters, a value that its key doesn't take, a \
        number out of its range.")]
    BadValue,
    /// The cluster has no node, or no resource, of this name.
    #[error("There is no node, resource, member or child of that name.")]
    UnknownName,
}

/// The name of a cause, as it is printed: that of its variant.
pub(crate) fn word_name(cause: WordCause) -> &'static str
    ensures { result.now ≡ word_name cause }
{
    match cause {
        WordCause::UnknownStatement => "UnknownStatement",
        WordCause::MissingWord => "MissingWord",
        WordCause::ExtraWord => "ExtraWord",
        WordCause::BadValue => "BadValue",
        WordCause::UnknownName => "UnknownName",
    }
}
