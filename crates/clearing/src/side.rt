// The two sides of a trade.
ghost use Rattle.clearing.specs.Side.{other};
ghost use Rattle.clearing.specs.Words.{side_text};
ghost use Rattle.std.specs.Prelude.{◌≡◌, Some};

use std::fmt;

#[derive(Clone, Copy, PartialEq, Eq, Debug)]
pub enum Side {
    Buy,
    Sell,
}

impl Side {
    pub fn other(self) -> Side
        ensures { result ≡ other self }
    {
        match self {
            Side::Buy => Side::Sell,
            Side::Sell => Side::Buy,
        }
    }
}

impl fmt::Display for Side {
    ghost output = { λ side. Some (side_text side) };

    fn fmt<W: fmt::Write>(&self, f: &mut fmt::Formatter<W>) -> fmt::Result {
        f.write_str(match self {
            Side::Buy => "buy",
            Side::Sell => "sell",
        })
    }
}
