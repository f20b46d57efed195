// Going over the names of a list.
ghost use Rattle.std.specs.Prelude.{◌≡◌, ◌∷◌, [], take, drop, true, IfSome, IfNone};
ghost use Rattle.macro_expand.specs.States.{names_left};

/// The names of a list that are left.
#[derive(Drop)]
pub struct NameIter<'a> {
    pub lengths: &'a [usize],
    pub text: &'a [u8],
}

/// No names.
pub fn none_left<'a>() -> NameIter<'a>
    ensures { names_left result ≡ [] }
{
    NameIter {
        lengths: &[],
        text: &[],
    }
}

/// The prefix of the text of so many bytes, and the rest.
fn cut(text: &[u8], length: usize) -> (&[u8], &[u8])
    ensures front { result.0.now ≡ take length text.now }
    ensures rest { result.1.now ≡ drop length text.now }
{
    if length > text.len() {
        return (text, &[]);
    }
    text.split_at(length)
}

/// Takes the next name.
pub fn next_name<'a>(left: &mut NameIter<'a>) -> Option<&'a [u8]>
    ensures name { IfSome result (λ name. names_left left.old ≡ name.now ∷ names_left left.new) }
    ensures none { IfNone result (names_left left.old ≡ []) }
{
    let Some((length, lengths)) = left.lengths.split_first() else {
        return None;
    };
    let (name, text) = cut(left.text, *length);
    left.lengths = lengths;
    left.text = text;
    Some(name)
}

/// Whether both have the same texts, of the same lengths.
pub fn are_same(a: &NameIter, b: &NameIter) -> bool
    ensures { result ≡ true → names_left a.now ≡ names_left b.now }
{
    a.lengths == b.lengths && a.text == b.text
}
