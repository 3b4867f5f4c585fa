ghost use Rattle.std.specs.Prelude.{◌≡◌};
ghost use Rattle.rules.specs.Faults.{layer_of};

/// The layers of a terminal, from the lowest up. A fault belongs to one of them, by its number.
#[derive(Clone, Copy, Debug, PartialEq, Eq)]
pub enum Layer {
    Medium,
    Cell,
    Indicator,
    Store,
    Trace,
}

/// The layer of a fault, by its number.
impl From<u8> for Layer {
    ghost from_gives = { λ number layer. layer ≡ layer_of number };

    fn from(number: u8) -> Layer {
        match number {
            1..=3 => Layer::Medium,
            7 => Layer::Cell,
            20..=31 => Layer::Store,
            32 => Layer::Trace,
            _ => Layer::Indicator,
        }
    }
}
