ghost use Rattle.std.specs.Prelude.{◌≡◌, ◌≤◌, ◌<◌, ◌+◌, ◌^◌, ℕ, length, take, drop, IfSome, IsTrue};
ghost use Rattle.pp_tokens.specs.Cleaning.{trigraph, cleaned_from};
ghost use Rattle.pp_tokens.specs.Raw.{decoded, feed, splice, IsSettled, IsPlain, ArePlain, front_of};

/// The bytes after the first ones.
pub fn behind(bytes: &[u8], count: usize) -> &[u8]
    requires { count ≤ length bytes.now }
    ensures { result.now ≡ drop count bytes.now }
{
    &bytes[count..]
}

/// The first bytes.
pub fn in_front(bytes: &[u8], count: usize) -> &[u8]
    requires { count ≤ length bytes.now }
    ensures { result.now ≡ take count bytes.now }
{
    &bytes[..count]
}

/// What a trigraph stands for, by its third byte (C17 5.2.1.1).
fn trigraph(third: u8) -> Option<u8>
    ensures { result ≡ trigraph third }
{
    match third {
        b'=' => Some(b'#'),
        b'(' => Some(b'['),
        b'/' => Some(b'\\'),
        b')' => Some(b']'),
        b'\'' => Some(b'^'),
        b'<' => Some(b'{'),
        b'!' => Some(b'|'),
        b'>' => Some(b'}'),
        b'-' => Some(b'~'),
        _ => None,
    }
}

/// The byte in front after trigraphs are replaced, and how many bytes spell it.
fn decoded(bytes: &[u8]) -> Option<(u8, usize)>
    ensures value { result ≡ decoded bytes.now }
    ensures bound { IfSome result (λ unit. (1 ≤ unit.1) × (unit.1 ≤ length bytes.now)) }
{
    match bytes {
        [b'?', b'?', third, ..] => match trigraph(*third) {
            Some(byte) => Some((byte, 3)),
            None => Some((b'?', 1)),
        },
        [byte, ..] => Some((*byte, 1)),
        [] => None,
    }
}

/// How many bytes spell the line feed in front, 0 where there is none.
fn feed(bytes: &[u8]) -> usize
    ensures value { result ≡ feed bytes.now }
    ensures bound { result ≤ length bytes.now }
{
    match bytes {
        [b'\n', ..] => 1,
        [b'\r', b'\n', ..] => 2,
        _ => 0,
    }
}

/// How many bytes spell the `\` and line feed in front, 0 where there are none.
fn splice(bytes: &[u8]) -> usize
    ensures value { result ≡ splice bytes.now }
    ensures bound { result ≤ length bytes.now }
{
    match decoded(bytes) {
        Some((b'\\', width)) => {
            let size = feed(&bytes[width..]);
            if size > 0 { width + size } else { 0 }
        }
        _ => 0,
    }
}

/// The bytes after all splices in front, and their line.
pub fn past_splices(bytes: &[u8], first: u64) -> (&[u8], u64)
    requires { first + length bytes.now < 2 ^ 64 }
    ensures same { cleaned_from result.1 result.0.now ≡ cleaned_from first bytes.now }
    ensures done { splice result.0.now ≡ 0 }
    ensures bound { result.1 + length result.0.now ≤ first + length bytes.now }
{
    let mut rest = bytes;
    let mut line = first;
    loop {
        let size = splice(rest);
        if size == 0 {
            return (rest, line);
        }
        rest = behind(rest, size);
        line += 1;
    }
}

/// The bytes without a carriage return in front that is before a line feed.
pub fn past_return(bytes: &[u8]) -> &[u8]
    requires { splice bytes.now ≡ 0 }
    ensures same { (line : ℕ) → cleaned_from line result.now ≡ cleaned_from line bytes.now }
    ensures settled { IsSettled result.now }
    ensures bound { length result.now ≤ length bytes.now }
{
    if feed(bytes) == 2 { &bytes[1..] } else { bytes }
}

/// The byte in front, and how many bytes spell it.
#[inline]
pub fn front(cleans: bool, bytes: &[u8]) -> Option<(u8, usize)>
    ensures value { result ≡ front_of cleans bytes.now }
    ensures bound { IfSome result (λ unit. (1 ≤ unit.1) × (unit.1 ≤ length bytes.now)) }
{
    let [byte, ..] = bytes else {
        return None;
    };
    if cleans && *byte == b'?' {
        return decoded(bytes);
    }
    Some((*byte, 1))
}

/// Whether one byte in front is to be passed over, and nothing after it goes away.
#[inline]
pub fn is_plain(bytes: &[u8]) -> bool
    ensures { IsTrue result → IsPlain bytes.now }
{
    match bytes {
        [byte, next, ..] => *byte != b'?'
            && *byte != b'\n'
            && *next != b'\r'
            && *next != b'\\'
            && *next != b'?',
        _ => false,
    }
}

/// How many bytes in front are plain, one after the other.
pub fn plain_run(bytes: &[u8]) -> usize
    ensures { ArePlain result bytes.now }
{
    let mut rest = bytes;
    let mut run = 0;
    while is_plain(rest) {
        rest = behind(rest, 1);
        run += 1;
    }
    run
}
