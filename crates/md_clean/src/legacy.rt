//! The names of character references that HTML reads without a `;` too.

/// The longest of these names.
pub(crate) const LONGEST: usize = 6;

/// The character of a name, if it is read without a `;` too.
pub(crate) fn legacy(name: &[u8]) -> Option<char> {
    let names = match name.len() {
        2 => TWO.as_slice(),
        3 => THREE.as_slice(),
        4 => FOUR.as_slice(),
        5 => FIVE.as_slice(),
        6 => SIX.as_slice(),
        _ => return None,
    };
    let (_, character) = names.iter().find(|entry| entry.0.as_bytes() == name)?;
    Some(*character)
}

/// Names of 2 letters.
#[rattlefmt::skip]
static TWO: [(&str, char); 4] = [
    ("GT", '>'), ("LT", '<'), ("gt", '>'), ("lt", '<'),
];

/// Names of 3 letters.
#[rattlefmt::skip]
static THREE: [(&str, char); 11] = [
    ("AMP", '&'), ("ETH", '\u{d0}'), ("REG", '\u{ae}'), ("amp", '&'), ("deg", '\u{b0}'),
    ("eth", '\u{f0}'), ("not", '\u{ac}'), ("reg", '\u{ae}'), ("shy", '\u{ad}'), ("uml", '\u{a8}'),
    ("yen", '\u{a5}'),
];

/// Names of 4 letters.
#[rattlefmt::skip]
static FOUR: [(&str, char); 25] = [
    ("Auml", '\u{c4}'), ("COPY", '\u{a9}'), ("Euml", '\u{cb}'), ("Iuml", '\u{cf}'),
    ("Ouml", '\u{d6}'), ("QUOT", '"'), ("Uuml", '\u{dc}'), ("auml", '\u{e4}'), ("cent", '\u{a2}'),
    ("copy", '\u{a9}'), ("euml", '\u{eb}'), ("iuml", '\u{ef}'), ("macr", '\u{af}'),
    ("nbsp", '\u{a0}'), ("ordf", '\u{aa}'), ("ordm", '\u{ba}'), ("ouml", '\u{f6}'),
    ("para", '\u{b6}'), ("quot", '"'), ("sect", '\u{a7}'), ("sup1", '\u{b9}'), ("sup2", '\u{b2}'),
    ("sup3", '\u{b3}'), ("uuml", '\u{fc}'), ("yuml", '\u{ff}'),
];

/// Names of 5 letters.
#[rattlefmt::skip]
static FIVE: [(&str, char); 25] = [
    ("AElig", '\u{c6}'), ("Acirc", '\u{c2}'), ("Aring", '\u{c5}'), ("Ecirc", '\u{ca}'),
    ("Icirc", '\u{ce}'), ("Ocirc", '\u{d4}'), ("THORN", '\u{de}'), ("Ucirc", '\u{db}'),
    ("acirc", '\u{e2}'), ("acute", '\u{b4}'), ("aelig", '\u{e6}'), ("aring", '\u{e5}'),
    ("cedil", '\u{b8}'), ("ecirc", '\u{ea}'), ("icirc", '\u{ee}'), ("iexcl", '\u{a1}'),
    ("laquo", '\u{ab}'), ("micro", '\u{b5}'), ("ocirc", '\u{f4}'), ("pound", '\u{a3}'),
    ("raquo", '\u{bb}'), ("szlig", '\u{df}'), ("thorn", '\u{fe}'), ("times", '\u{d7}'),
    ("ucirc", '\u{fb}'),
];

/// Names of 6 letters.
#[rattlefmt::skip]
static SIX: [(&str, char); 41] = [
    ("Aacute", '\u{c1}'), ("Agrave", '\u{c0}'), ("Atilde", '\u{c3}'), ("Ccedil", '\u{c7}'),
    ("Eacute", '\u{c9}'), ("Egrave", '\u{c8}'), ("Iacute", '\u{cd}'), ("Igrave", '\u{cc}'),
    ("Ntilde", '\u{d1}'), ("Oacute", '\u{d3}'), ("Ograve", '\u{d2}'), ("Oslash", '\u{d8}'),
    ("Otilde", '\u{d5}'), ("Uacute", '\u{da}'), ("Ugrave", '\u{d9}'), ("Yacute", '\u{dd}'),
    ("aacute", '\u{e1}'), ("agrave", '\u{e0}'), ("atilde", '\u{e3}'), ("brvbar", '\u{a6}'),
    ("ccedil", '\u{e7}'), ("curren", '\u{a4}'), ("divide", '\u{f7}'), ("eacute", '\u{e9}'),
    ("egrave", '\u{e8}'), ("frac12", '\u{bd}'), ("frac14", '\u{bc}'), ("frac34", '\u{be}'),
    ("iacute", '\u{ed}'), ("igrave", '\u{ec}'), ("iquest", '\u{bf}'), ("middot", '\u{b7}'),
    ("ntilde", '\u{f1}'), ("oacute", '\u{f3}'), ("ograve", '\u{f2}'), ("oslash", '\u{f8}'),
    ("otilde", '\u{f5}'), ("plusmn", '\u{b1}'), ("uacute", '\u{fa}'), ("ugrave", '\u{f9}'),
    ("yacute", '\u{fd}'),
];
