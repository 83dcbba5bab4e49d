ghost use Rattle.std.specs.Prelude.{◌≡◌};
ghost use Rattle.crm_lex.specs.Names.{is};

/// Whether the word is this text, byte by byte.
pub fn is(word: &[u8], text: &[u8]) -> bool
    ensures { result ≡ is word.now text.now }
{
    word == text
}
