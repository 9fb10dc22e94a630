// Decimal numbers: digits and nothing else, in the range of their type. A signed number may begin with a minus.
ghost use Rattle.std.specs.Prelude.{◌≡◌, ◌^◌, ◌<◌, Decides, Err, IfSome, List, MatchResult, Ok, Result, length, ℕ};
ghost use Rattle.std.proofs.Common.{SFits, lit≤};
ghost use Rattle.std.specs.Int.{w32};
ghost use Rattle.number.specs.Again.{number_again, signed_again};
ghost use Rattle.number.specs.Parsing.{no_digits, parsed, number_apart, no_number, signed_parsed, signed_refused, signed_some};
ghost use Rattle.number.specs.declared.decimal.NumberFault.{NumberFault as Refusal};
ghost use Rattle.number.specs.declared.decimal.NumberFault.TheVariants.{NoDigits, TooLarge};
ghost use Rattle.number.specs.Numbers.{Digits, Numeral, ReadsBelow, ReadsSigned, WithoutMinus};

use std::fmt::Display;
use std::num::ParseIntError;
use std::str::FromStr;

// Why a word is no number of the wanted type.
#[derive(Clone, Copy, Debug, PartialEq, Eq)]
pub enum NumberFault {
    NoDigits,
    TooLarge,
}

// A type of whole numbers that are written in decimal.
pub trait Decimal: FromStr<Err = ParseIntError> + Display + Copy {
    // What a reader of these numbers answers.
    ghost reads: { List ℕ → Result Self Refusal → Type 0 };

    // The second text is the first without its sign.
    ghost unsigned: { List ℕ → List ℕ → Type 0 };

    // The values of the type.
    ghost fits: { Self → Type 0 };

    fn without_sign(word: &str) -> &str
        ensures { unsigned word.now result.now };

    fn in_range(self)
        ensures { fits self };

    ghost refuses: { (bs ds : List ℕ) → unsigned bs ds → (Numeral ds → ⊥) → reads bs (Err NoDigits) };

    ghost parses: { (bs ds : List ℕ) → unsigned bs ds → Numeral ds → (r : _) → Self.from_str_gives bs r → MatchResult r (λ n. reads bs (Ok n)) (λ _. reads bs (Err TooLarge)) };

    // What is shown of a number is read as that number alone.
    ghost again: { (n : Self) → fits n → (bs : List ℕ) → IfSome (Self.output n) (λ cs. bs ≡ cs) → (r : Result Self Refusal) → reads bs r → r ≡ Ok n };

    // A text that is refused is of no number, and the empty text is of none.
    ghost apart: { (bs : List ℕ) (e : Refusal) (n : Self) → reads bs (Err e) → reads bs (Ok n) → ⊥ };

    ghost some: { (bs : List ℕ) (n : Self) → reads bs (Ok n) → 0 < length bs };
}

impl Decimal for u8 {
    ghost reads = { ReadsBelow (2 ^ 8) };

    ghost unsigned = { λ bs ds. bs ≡ ds };

    ghost fits = { λ n. n < 2 ^ 8 };

    ghost refuses = { no_digits 8 };

    ghost parses = { λ bs ds e n r h. parsed 8 bs ds e n r h.0 };

    ghost again = { number_again 8 (lit≤ tt) };

    ghost apart = { number_apart 8 };

    ghost some = { λ bs n h. h.0.0 };

    fn without_sign(word: &str) -> &str {
        word
    }

    fn in_range(self) {}
}

impl Decimal for u16 {
    ghost reads = { ReadsBelow (2 ^ 16) };

    ghost unsigned = { λ bs ds. bs ≡ ds };

    ghost fits = { λ n. n < 2 ^ 16 };

    ghost refuses = { no_digits 16 };

    ghost parses = { λ bs ds e n r h. parsed 16 bs ds e n r h.0 };

    ghost again = { number_again 16 (lit≤ tt) };

    ghost apart = { number_apart 16 };

    ghost some = { λ bs n h. h.0.0 };

    fn without_sign(word: &str) -> &str {
        word
    }

    fn in_range(self) {}
}

impl Decimal for u32 {
    ghost reads = { ReadsBelow (2 ^ 32) };

    ghost unsigned = { λ bs ds. bs ≡ ds };

    ghost fits = { λ n. n < 2 ^ 32 };

    ghost refuses = { no_digits 32 };

    ghost parses = { λ bs ds e n r h. parsed 32 bs ds e n r h.0 };

    ghost again = { number_again 32 (lit≤ tt) };

    ghost apart = { number_apart 32 };

    ghost some = { λ bs n h. h.0.0 };

    fn without_sign(word: &str) -> &str {
        word
    }

    fn in_range(self) {}
}

impl Decimal for u64 {
    ghost reads = { ReadsBelow (2 ^ 64) };

    ghost unsigned = { λ bs ds. bs ≡ ds };

    ghost fits = { λ n. n < 2 ^ 64 };

    ghost refuses = { no_digits 64 };

    ghost parses = { λ bs ds e n r h. parsed 64 bs ds e n r h.0 };

    ghost again = { number_again 64 (lit≤ tt) };

    ghost apart = { number_apart 64 };

    ghost some = { λ bs n h. h.0.0 };

    fn without_sign(word: &str) -> &str {
        word
    }

    fn in_range(self) {}
}

impl Decimal for i32 {
    ghost reads = { ReadsSigned };

    ghost unsigned = { WithoutMinus };

    ghost fits = { SFits w32 };

    ghost refuses = { no_number };

    ghost parses = { λ bs ds u n r h. signed_parsed bs ds u n r h.0 };

    ghost again = { signed_again };

    ghost apart = { λ bs e n h. signed_refused bs e h n };

    ghost some = { signed_some };

    fn without_sign(word: &str) -> &str {
        word.strip_prefix('-').unwrap_or(word)
    }

    fn in_range(self) {}
}

fn all_digits(word: &str) -> bool
    ensures { Decides result (Digits word.now) }
{
    word.bytes().all(|b| b.is_ascii_digit())
}

// Reads a word of digits, with a minus before them where the type has one.
pub fn read_number<T: Decimal>(word: &str) -> Result<T, NumberFault>
    ensures { T.reads word.now result }
{
    let digits = T::without_sign(word);
    if digits.is_empty() || !all_digits(digits) {
        return Err(NumberFault::NoDigits);
    }
    word.parse::<T>().map_err(|_| NumberFault::TooLarge)
}
