// Parts of a text, between the places of one byte.
ghost use Rattle.std.specs.Prelude.{◌≡◌, ◌<◌, ◌∷◌, [], length, option_map, position, ◌==◌, IfSome, IfNone};
ghost use Rattle.dvs_base.specs.Parts.{two_of, three_of};
ghost use Rattle.trace_reader.specs.Fields.{parts, one_of, four_of, six_of};

// The place of the first separator.
fn place_of(bytes: &[u8], separator: u8) -> Option<usize>
    ensures { result ≡ position (λ b. b == separator) bytes.now }
{
    bytes.iter().position(|b| *b == separator)
}

// The bytes before the first separator, and the bytes after it.
pub(crate) fn cut(bytes: &[u8], separator: u8) -> Option<(&[u8], &[u8])>
    ensures found { IfSome result (λ p. parts separator bytes.now ≡ p.0.now ∷ parts separator p.1.now) }
    ensures none { IfNone result (parts separator bytes.now ≡ bytes.now ∷ []) }
    ensures less { IfSome result (λ p. length p.1.now < length bytes.now) }
{
    let i = place_of(bytes, separator)?;
    Some((&bytes[..i], &bytes[i + 1..]))
}

// The text, if it has one part.
fn one_part(bytes: &[u8], separator: u8) -> Option<&[u8]>
    ensures { option_map (λ a. a.now) result ≡ one_of (parts separator bytes.now) }
{
    match cut(bytes, separator) {
        Some(_) => None,
        None => Some(bytes),
    }
}

// The parts, if there are two.
pub(crate) fn two_parts(bytes: &[u8], separator: u8) -> Option<(&[u8], &[u8])>
    ensures { option_map (λ p. (p.0.now, p.1.now)) result ≡ two_of (parts separator bytes.now) }
{
    let (a, rest) = cut(bytes, separator)?;
    Some((a, one_part(rest, separator)?))
}

// The parts, if there are three.
pub(crate) fn three_parts(bytes: &[u8], separator: u8) -> Option<(&[u8], &[u8], &[u8])>
    ensures { option_map (λ p. (p.0.now, p.1.now, p.2.now)) result ≡ three_of (parts separator bytes.now) }
{
    let (a, rest) = cut(bytes, separator)?;
    let (b, c) = two_parts(rest, separator)?;
    Some((a, b, c))
}

// The parts, if there are four.
pub(crate) fn four_parts(bytes: &[u8], separator: u8) -> Option<(&[u8], &[u8], &[u8], &[u8])>
    ensures { option_map (λ p. (p.0.now, p.1.now, p.2.now, p.3.now)) result ≡ four_of (parts separator bytes.now) }
{
    let (a, rest) = cut(bytes, separator)?;
    let (b, c, d) = three_parts(rest, separator)?;
    Some((a, b, c, d))
}

// The parts, if there are six.
pub(crate) fn six_parts(
    bytes: &[u8],
    separator: u8,
) -> Option<(&[u8], &[u8], &[u8], &[u8], &[u8], &[u8])>
    ensures { option_map (λ p. (p.0.now, p.1.now, p.2.now, p.3.now, p.4.now, p.5.now)) result
        ≡ six_of (parts separator bytes.now) }
{
    let (a, rest) = cut(bytes, separator)?;
    let (b, rest) = cut(rest, separator)?;
    let (c, d, e, f) = four_parts(rest, separator)?;
    Some((a, b, c, d, e, f))
}
