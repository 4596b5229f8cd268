// The small readers of a line: each takes what it knows off the front and gives the rest.
ghost use Rattle.std.specs.Prelude.{◌≡◌, ◌<◌, IfSome};
ghost use Rattle.std.specs.Option.{option_map};
ghost use Rattle.forms.specs.Scanning.{skipped, seen, decimal_digit_of, hex_digit_of, hex_value, last_word_of, with_digit, more_digits_of, number_of};

// The rest of the line after `text`, if the line begins with it.
pub fn skip<'a>(s: &'a [u8], text: &[u8]) -> Option<&'a [u8]>
    ensures value { option_map (λ x. x.now) result ≡ skipped text.now s.now }
{
    s.strip_prefix(text)
}

// No `to_digit`: what it gives has to be narrowed again.
fn decimal_digit(c: u8) -> Option<u8>
    ensures value { result ≡ decimal_digit_of c }
    ensures below { IfSome result (λ d. d < 10) }
{
    match c {
        b'0'..=b'9' => Some(c - b'0'),
        _ => None,
    }
}

// Capital letters only: `to_digit` takes small ones too.
fn hex_digit(c: u8) -> Option<u8>
    ensures value { result ≡ hex_digit_of c }
    ensures below { IfSome result (λ d. d < 16) }
{
    match c {
        b'0'..=b'9' => Some(c - b'0'),
        b'A'..=b'F' => Some(c - b'A' + 10),
        _ => None,
    }
}

// The value of six hexadecimal digits. A loop: nothing would bound the word in a `try_fold`.
#[tactic(auto, using(crate::proofs::Words::room))]
fn hex_value(digits: &[u8; 6]) -> Option<u32>
    ensures value { result ≡ hex_value 0 digits.now }
{
    let mut word = 0;
    for digit in digits.iter().copied() {
        word = word * 16 + u32::from(hex_digit(digit)?);
    }
    Some(word)
}

// A word at the end of its list: a space, six hexadecimal digits, and the parenthesis that closes the list.
pub fn take_last_word(s: &[u8]) -> Option<(u32, &[u8])>
    ensures value { seen result ≡ last_word_of s.now }
{
    let (digits, rest) = skip(s, b" ")?.split_first_chunk::<6>()?;
    Some((hex_value(digits)?, skip(rest, b")")?))
}

// One more digit at the end of `number`, where the result stays below 256.
fn with_digit(number: u8, digit: u8) -> Option<u8>
    ensures value { result ≡ with_digit number digit }
{
    number.checked_mul(10)?.checked_add(digit)
}

// More digits after those that made `value`, and the parenthesis that closes them.
fn more_digits(value: u8, s: &[u8]) -> Option<(u8, &[u8])>
    ensures value { seen result ≡ more_digits_of value s.now }
{
    let mut number = value;
    let mut rest = s;
    while let Some((first, after)) = rest.split_first() {
        if *first == b')' {
            return Some((number, after));
        }
        number = with_digit(number, decimal_digit(*first)?)?;
        rest = after;
    }
    None
}

// A number below 256 without a leading zero, and the parenthesis that closes it.
pub fn take_number(s: &[u8]) -> Option<(u8, &[u8])>
    ensures value { seen result ≡ number_of s.now }
{
    let (first, rest) = s.split_first()?;
    match decimal_digit(*first)? {
        0 => Some((0, skip(rest, b")")?)),
        digit => more_digits(digit, rest),
    }
}
