ghost use Rattle.std.specs.Prelude.{◌≡◌};
ghost use Rattle.pp_tokens.specs.Kinds.{same};

/// Whether the two are the same bytes.
pub fn is_text(name: &[u8], text: &[u8]) -> bool
    ensures { result ≡ same name.now text.now }
{
    name == text
}
