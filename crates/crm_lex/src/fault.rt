ghost use Rattle.std.specs.Prelude.{◌≡◌};
ghost use Rattle.crm_lex.specs.Causes.{lex_name};

use faults::Fault;
use thiserror::Error;

/// Why the words of a text can't be read (rule of this project).
#[derive(Clone, Copy, Debug, PartialEq, Eq, Error)]
pub enum LexCause {
    /// The bytes of a physical line are not UTF-8.
    #[error("The line has bytes that are not UTF-8.")]
    NotUtf8,
    /// A physical line has a byte below 32 that is no tab, or the byte 127. Its line end, a line feed or a carriage
    /// return and a line feed, doesn't count.
    #[error("The line has a control byte other than a tab, such as a null byte or a carriage return inside the line.")]
    ControlByte,
    /// A quote is open at the end of a logical line. The fault stands at the first physical line of it.
    #[error("A quote is opened and not closed on its line; a line goes on only when it ends in a backslash.")]
    OpenQuote,
    /// A logical line has more than 1,048,576 bytes without its line ends, as a comment too. The fault stands at the
    /// first physical line of it.
    #[error("The line, with those that continue it, has more than 1,048,576 bytes, line ends not counted; a comment \
        can be too long as well.")]
    LineTooLong,
}

/// The name of a cause, as it is printed: that of its variant.
pub fn lex_name(cause: LexCause) -> &'static str
    ensures { result.now ≡ lex_name cause }
{
    match cause {
        LexCause::NotUtf8 => "NotUtf8",
        LexCause::ControlByte => "ControlByte",
        LexCause::OpenQuote => "OpenQuote",
        LexCause::LineTooLong => "LineTooLong",
    }
}

/// Why the words of a text could not be given.
pub type LexFault = Fault<LexCause>;
