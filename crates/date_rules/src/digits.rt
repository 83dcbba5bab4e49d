ghost use Rattle.std.specs.Prelude.{◌≡◌, ◌≤◌, ℕ};
ghost use Rattle.std.specs.List.{list_all, zip};
ghost use Rattle.date_rules.specs.Digits.{fits, has_form, two_digits};
ghost use Rattle.date_rules.specs.Inner.Digits.{HasTwoDigits};

/// Whether the text is as long as the form, with a digit where the form has a 0, and else the form's byte.
#[tactic(auto, unfolding(crate::specs::Digits::has_form))]
pub fn has_form(form: &[u8], text: &[u8]) -> bool
    ensures { result ≡ has_form form.now text.now }
{
    form.len() == text.len() && all_fit(form, text)
}

fn all_fit(form: &[u8], text: &[u8]) -> bool
    ensures { result ≡ list_all (λ (pair : ℕ × ℕ). fits pair.0 pair.1) (zip form.now text.now) }
{
    form.iter().zip(text).all(|(mark, byte)| fits(*mark, *byte))
}

fn fits(mark: u8, byte: u8) -> bool
    ensures { result ≡ fits mark byte }
{
    if mark == b'0' {
        byte.is_ascii_digit()
    } else {
        byte == mark
    }
}

/// The number that the two digits from a place on write.
pub fn two_digits(text: &[u8], place: usize) -> u8
    requires { HasTwoDigits text.now place }
    ensures value { result ≡ two_digits text.now place }
    ensures bound { result ≤ 99 }
{
    10 * (text[place] - b'0') + (text[place + 1] - b'0')
}
