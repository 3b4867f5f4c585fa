ghost use Rattle.std.specs.Prelude.{◌≡◌};
ghost use Rattle.rules.specs.Loads.{price_of};

/// The price in cents of so many kg, at so many cents per tonne: nearest, ties up.
pub fn price(kg: u32, unit_price: u32) -> u64
    ensures { result ≡ price_of kg unit_price }
{
    (u64::from(kg) * u64::from(unit_price) + 500) / 1000
}
