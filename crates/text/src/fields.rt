// The fields of a line. A reader takes the text that is left; it answers a value and the text after the field, or, as its error, the text from the
// first byte at fault on.
ghost use Rattle.std.specs.Prelude.{◌≡◌, ◌∷◌, ◌++◌, decimal, MatchBool, MatchResult};
ghost use Rattle.text.specs.Fields.{mark, letter, SevenDigits, Word, Number, Letter, Choice, More};
ghost use Rattle.text.specs.Texts.{Stops};

// A fault in a text: what is left of the text from the first byte at fault on.
#[derive(Clone, Copy, Debug, PartialEq, Eq)]
pub struct Fault<'a> {
    pub left: &'a [u8],
}

// What stands after a field.
#[derive(Clone, Copy, Debug, PartialEq, Eq)]
pub enum End {
    Blank,
    Line,
}

// What a field of one letter says: `n` or `t`, and `k` or `s`.
#[derive(Clone, Copy, Debug, PartialEq, Eq)]
pub enum Letters {
    Turn,
    Spare,
}

impl End {
    // The byte that stands there: a mark, and no number of the case.
    fn byte(self) -> u8
        ensures { result ≡ mark self }
    {
        match self {
            End::Blank => b' ',
            End::Line => b'\n',
        }
    }
}

impl Letters {
    // The letter for no or for yes: a mark, and no number of the case.
    fn byte(self, yes: bool) -> u8
        ensures { result ≡ letter self yes }
    {
        match (self, yes) {
            (Letters::Turn, false) => b'n',
            (Letters::Turn, true) => b't',
            (Letters::Spare, false) => b'k',
            (Letters::Spare, true) => b's',
        }
    }
}

// A fixed word.
pub fn word<'a>(text: &'a [u8], expected: &[u8]) -> Result<&'a [u8], Fault<'a>>
    ensures { MatchResult result (λ rest. text.now ≡ expected.now ++ rest.now) (λ f. Stops (Word expected.now) text.now f.left.now) }
{
    let mut rest = text;
    for byte in expected {
        let Some((first, tail)) = rest.split_first() else {
            return Err(Fault { left: rest });
        };
        if *first != *byte {
            return Err(Fault { left: rest });
        }
        rest = tail;
    }
    Ok(rest)
}

// The most digits of a number.
const MOST_DIGITS: u8 = 7;

// Whether `byte` can be the next digit of a number.
fn goes_on(value: u32, digits: u8, byte: u8) -> bool
    ensures { MatchBool result (More digits value byte) (More digits value byte → ⊥) }
{
    let leading_zero = digits > 0 && value == 0;
    digits < MOST_DIGITS && !leading_zero && byte.is_ascii_digit()
}

// A number of at most seven digits without a needless leading zero, and the mark after it.
pub fn number<'a>(text: &'a [u8], end: End) -> Result<(u32, &'a [u8]), Fault<'a>>
    ensures { MatchResult result (λ x. SevenDigits x.0 × (text.now ≡ decimal x.0 ++ mark end ∷ x.1.now)) (λ f. Stops (Number (mark end)) text.now f.left.now) }
{
    let last = end.byte();
    let mut value = 0u32;
    let mut digits = 0u8;
    let mut left = text;
    while let Some((byte, tail)) = left.split_first() {
        if digits > 0 && *byte == last {
            return Ok((value, tail));
        }
        if !goes_on(value, digits, *byte) {
            return Err(Fault { left });
        }
        value = value * 10 + u32::from(*byte - b'0');
        digits += 1;
        left = tail;
    }
    Err(Fault { left })
}

// One of two letters.
fn one_letter<'a>(text: &'a [u8], letters: Letters) -> Result<(bool, &'a [u8]), Fault<'a>>
    ensures { MatchResult result (λ x. text.now ≡ letter letters x.0 ∷ x.1.now) (λ f. Stops (Letter letters) text.now f.left.now) }
{
    let Some((first, rest)) = text.split_first() else {
        return Err(Fault { left: text });
    };
    if *first == letters.byte(true) {
        Ok((true, rest))
    } else if *first == letters.byte(false) {
        Ok((false, rest))
    } else {
        Err(Fault { left: text })
    }
}

// A choice of two letters, and the mark after it.
pub fn choice<'a>(text: &'a [u8], letters: Letters, end: End) -> Result<(bool, &'a [u8]), Fault<'a>>
    ensures { MatchResult result (λ x. text.now ≡ letter letters x.0 ∷ (mark end ∷ x.1.now)) (λ f. Stops (Choice letters (mark end)) text.now f.left.now) }
{
    let (chosen, rest) = one_letter(text, letters)?;
    let after = word(rest, &[end.byte()])?;
    Ok((chosen, after))
}
