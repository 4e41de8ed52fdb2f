// The signs of bounds.
ghost use Rattle.std.specs.Prelude.{◌≡◌};
ghost use Rattle.operators.specs.Signs.{strict_at};

use lexer::numbers;

// Does the sign leave its bound out?
pub fn strict(number: u32) -> bool
    ensures { result ≡ strict_at number }
{
    if number == numbers::LESS {
        return true;
    }
    number == numbers::LE
}
