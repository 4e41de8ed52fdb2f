// Numbers: numerals, + - * / % and comparisons (document 01, 'Values').
ghost use Rattle.std.specs.Prelude.{◌≡◌};
ghost use Rattle.language.specs.Values.{in_range, decimal, calculate as calculate'};
ghost use Rattle.language.specs.Expansion.{test};
ghost use Rattle.sets.specs.Answers.{says};
ghost use Rattle.sets.specs.Operators.{arithmetic, comparison};
ghost use Rattle.sets.specs.Digits.{digits_at};

use language::limits;
use node::{Refusal, refusals};
use operators::codes;

// The numeral that starts at an offset of the text. No product wraps: it is left where the value is above the limit.
pub fn numeral(text: &[u8], at: u32) -> Result<u32, Refusal>
    ensures { says result ≡ in_range at (decimal 0 (digits_at text.now at)) }
{
    let mut v: u32 = 0;
    for i in at as usize..text.len() {
        let c = u32::from(text[i]);
        if c < 48 {
            return Ok(v);
        }
        if 57 < c {
            return Ok(v);
        }
        v = v * 10 + (c - 48);
        if limits::MAX_NUMBER < v {
            return Err(Refusal {
                number: refusals::OUT_OF_RANGE,
                place: at,
            });
        }
    }
    Ok(v)
}

fn in_range(place: u32, v: u64) -> Result<u32, Refusal>
    ensures { says result ≡ in_range place v }
{
    if v <= limits::MAX_NUMBER as u64 {
        return Ok(v as u32);
    }
    Err(Refusal {
        number: refusals::OUT_OF_RANGE,
        place,
    })
}

// Operators by number; any number but these four stands for %.
pub fn calculate(place: u32, operator: u32, a: u32, b: u32) -> Result<u32, Refusal>
    ensures { says result ≡ calculate' place (arithmetic operator) a b }
{
    // An arm for each operator, since each is refused by a test of its own.
    match operator {
        codes::PLUS => in_range(place, (a as u64) + (b as u64)),
        codes::MINUS => {
            if a < b {
                return Err(Refusal {
                    number: refusals::OUT_OF_RANGE,
                    place,
                });
            }
            Ok(a - b)
        }
        codes::TIMES => in_range(place, (a as u64) * (b as u64)),
        codes::DIVIDE => {
            if b == 0 {
                return Err(Refusal {
                    number: refusals::OUT_OF_RANGE,
                    place,
                });
            }
            Ok(a / b)
        }
        _ => {
            if b == 0 {
                return Err(Refusal {
                    number: refusals::OUT_OF_RANGE,
                    place,
                });
            }
            Ok(a % b)
        }
    }
}

// Comparisons by number; any number but these five stands for >=.
pub fn compare(operator: u32, a: u32, b: u32) -> bool
    ensures { result ≡ test (comparison operator) a b }
{
    match operator {
        codes::EQUAL => a == b,
        codes::UNEQUAL => a != b,
        codes::LESS => a < b,
        codes::AT_MOST => a <= b,
        codes::GREATER => b < a,
        _ => b <= a,
    }
}
