//! The names of byte orders in the arguments of a program.

ghost use Rattle.std.specs.Prelude.{◌≡◌};

/// The name of a byte order.
#[derive(Copy, Clone, Debug, PartialEq, Eq)]
pub enum OrderName {
    /// The least significant byte first.
    Little,
    /// The most significant byte first.
    Big,
    /// The machine's own order.
    Native,
}

impl OrderName {
    ghost use Rattle.perf_text.specs.Orders.{order_named};

    /// The byte order that an argument names. `None` for any other argument.
    pub fn of(word: &str) -> Option<OrderName>
        ensures { result ≡ order_named word.now }
    {
        match word {
            "little" => Some(OrderName::Little),
            "big" => Some(OrderName::Big),
            "native" => Some(OrderName::Native),
            _ => None,
        }
    }
}
