ghost use Rattle.std.specs.Prelude.{◌≡◌, ℕ};
ghost use Rattle.rules.specs.Faults.{layer_of};

use crate::layer::Layer;

/// Why a call is refused. A fault carries its number, its layer and a place; one from a layer below is carried whole.
pub trait Fault: Copy {
    ghost number_of: { Self → ℕ };

    /// The row, page, line or byte that it is about, where a rule names one.
    ghost place_of: { Self → ℕ };

    /// The number of the fault.
    fn number(self) -> u8
        ensures { result ≡ number_of self };

    /// The place that the fault is about, or 0.
    fn place(self) -> usize
        ensures { result ≡ place_of self };

    /// The layer that the fault belongs to, by its number.
    fn layer(self) -> Layer
        ensures { result ≡ layer_of (number_of self) }
    {
        Layer::from(self.number())
    }
}
