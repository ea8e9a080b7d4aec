//! The width of what a conversion reads and of what it gives (`trunc`, `sext`, `zext`).

ghost use Rattle.std.specs.Prelude.{◌≡◌};
ghost use Rattle.program.specs.Widths.{source_width};

use syntax::{Conversion, Width};

/// The width of the number that is converted.
pub fn source_width(conversion: Conversion) -> Width
    ensures { result ≡ source_width conversion }
{
    match conversion {
        Conversion::Truncate => Width::Bits64,
        Conversion::SignExtend => Width::Bits32,
        Conversion::ZeroExtend => Width::Bits32,
    }
}
