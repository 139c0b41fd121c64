//! A text cut in two at a byte.
ghost use Rattle.std.specs.Prelude.{◌≡◌, option_map};
ghost use Rattle.fields.specs.text.Cut.{cut_at};

/// What stands before the first place of a byte in a text, and what stands after it, both lent; nothing where the
/// byte isn't there.
pub fn cut_at(text: &[u8], at: u8) -> Option<(&[u8], &[u8])>
    ensures { option_map (λ p. (p.0.now, p.1.now)) result ≡ cut_at at text.now }
{
    for (i, byte) in text.iter().enumerate() {
        if *byte == at {
            return Some((&text[..i], &text[i + 1..]));
        }
    }
    None
}
