ghost use Rattle.std.specs.Prelude.{◌≡◌};
ghost use Rattle.crm_lex.specs.RawLines as raw;
ghost use Rattle.crm_lex.specs.Words as spec;

/// Where a byte of a text stands.
#[derive(Clone, Copy, PartialEq, Eq)]
pub enum Place {
    Outside,
    Double,
    /// Between double quotes, behind a backslash that escapes it.
    Escaped,
    Single,
}

/// What a byte of a text is.
#[derive(Clone, Copy)]
pub enum Piece {
    /// A blank that parts words.
    Gap,
    /// A quote, or a backslash that escapes: it stands in a word and adds no byte to it.
    Mark,
    /// A byte of a word.
    Letter(u8),
}

pub fn is_blank(byte: u8) -> bool
    ensures { result ≡ raw.is_blank byte }
{
    byte == b'\t' || byte == b' '
}

pub fn is_quote(byte: u8) -> bool
    ensures { result ≡ spec.is_quote byte }
{
    byte == b'"' || byte == b'\''
}

fn escapes(byte: u8, next: Option<u8>) -> bool
    ensures { result ≡ spec.escapes byte next }
{
    match next {
        Some(escaped) => byte == b'\\' && (escaped == b'"' || escaped == b'\\'),
        None => false,
    }
}

fn mark_if(mark: bool, byte: u8) -> Piece
    ensures { result ≡ spec.mark_if mark byte }
{
    if mark {
        Piece::Mark
    } else {
        Piece::Letter(byte)
    }
}

impl Piece {
    pub fn is_gap(self) -> bool
        ensures { result ≡ spec.is_gap self }
    {
        matches!(self, Piece::Gap)
    }
}

impl Place {
    /// What the byte at this place is.
    pub fn piece(self, byte: u8, next: Option<u8>) -> Piece
        ensures { result ≡ spec.piece_at self byte next }
    {
        match self {
            Place::Outside if is_blank(byte) => Piece::Gap,
            Place::Outside => mark_if(is_quote(byte), byte),
            Place::Double => mark_if(byte == b'"' || escapes(byte, next), byte),
            Place::Escaped => Piece::Letter(byte),
            Place::Single => mark_if(byte == b'\'', byte),
        }
    }

    /// The place behind that byte.
    pub fn after(self, byte: u8, next: Option<u8>) -> Place
        ensures { result ≡ spec.place_after self byte next }
    {
        match self {
            Place::Outside if byte == b'"' => Place::Double,
            Place::Outside if byte == b'\'' => Place::Single,
            Place::Outside => Place::Outside,
            Place::Double if byte == b'"' => Place::Outside,
            Place::Double if escapes(byte, next) => Place::Escaped,
            Place::Double | Place::Escaped => Place::Double,
            Place::Single if byte == b'\'' => Place::Outside,
            Place::Single => Place::Single,
        }
    }

    /// Whether a quote is open.
    pub fn is_inside(self) -> bool
        ensures { result ≡ spec.is_inside self }
    {
        self != Place::Outside
    }
}
