// Whole numbers that are read from a text.
ghost use Rattle.std.specs.Prelude.{◌≡◌};
ghost use Rattle.numerals.specs.Reading.{number_of, numbers_of};

// The number that a word writes.
#[tactic(auto, using(crate::proofs::Words::number_parsed))]
fn number(word: &str) -> Option<i64>
    ensures { result ≡ number_of word.now }
{
    word.parse::<i64>().ok()
}

// The numbers of a text that has just so many words, with white space between them; each is a sign or none, and decimal digits.
pub fn numbers<const N: usize>(text: &str) -> Option<[i64; N]>
    ensures { result ≡ numbers_of N text.now }
{
    let mut values = [0; N];
    let mut words = text.split_whitespace();
    for value in values.iter_mut() {
        *value = number(words.next()?)?;
    }
    match words.next() {
        None => Some(values),
        Some(_) => None,
    }
}
